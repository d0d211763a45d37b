// Laws that know nothing of the machine: lists, tests, searches, and how code is proved. They stand in specs/ and proofs/.

#![tactic(auto)]
