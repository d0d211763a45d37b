// The memory manager over lent memory: its calls, and the steps that a run answers.

#![tactic(auto)]

use store::PageRange;

// The pages of a machine, and how many slots and choice points it may have.
#[derive(Clone, Copy, Debug, PartialEq, Eq)]
pub struct Limits {
    pub pages: PageRange,
    pub slots: u16,
    pub choices: u8,
}

// Why a call is refused as a whole; then it writes nothing.
#[derive(Clone, Copy, Debug, PartialEq, Eq)]
pub enum CallRefusal {
    // the lent memory is no sound session
    NoSession,
    // more steps than a run takes, or fewer answer words than steps
    TooMany,
    // no heap, no tables or no stamp to open with
    NotOpenable,
}

pub mod calls;
mod runs;
mod steps;
