// What a program over the memory manager reads and prints: the words of a step file, and the lines of document 01.

#![tactic(auto)]

pub mod printing;
pub mod reading;
