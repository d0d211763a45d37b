// The copy machine of document 01 is in specs/, its laws in proofs/. Here stand the types that its definitions share with the code.

#![tactic(auto)]

use words::{Cell, Ref};

// Where following a reference ends: at a cell of tag 1, 3 or 4, or at a dead reference. It is an enum of its own and no Option, since dead is an answer
// (docs/DECISIONS.md, the forms).
#[derive(Clone, Copy, Debug, PartialEq, Eq)]
pub enum Found {
    Dead,
    At(Ref, Cell),
}

// What the state call answers of a sound session.
#[derive(Clone, Copy, Debug, PartialEq, Eq)]
pub struct State {
    pub free: u16,
    pub choices: u8,
    pub next: u32,
}
