// A stack of heaps in one heap with two marks a word. All of it stands in specs/ and proofs/.

#![tactic(auto)]
