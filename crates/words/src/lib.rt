// The words of document 01. These types are also the data of the machine's definitions: a contract says `r ≡ decode w`, with no translation.

#![tactic(auto)]

pub mod answers;
pub mod heap;
pub mod parts;
pub mod registers;
pub mod steps;

// A cell of a region: the region's stamp, and the cell's address, page x 16 + word. The order is that of age: the larger stamp is the younger region, at
// equal stamps the larger address the younger variable.
#[derive(Clone, Copy, Debug, PartialEq, Eq, PartialOrd, Ord)]
pub struct Ref {
    pub stamp: u32,
    pub address: u16,
}

// A filled word of a page, words 1 to 15: tags 1 to 5.
#[derive(Clone, Copy, Debug, PartialEq, Eq)]
pub enum Cell {
    Unbound,
    Bound(Ref),
    Int(i32),
    Head { functor: u16, arity: u8 },
    Argument(Ref),
}

// Word 0 of a held page, tag 6: the region's stamp, and the next page of the region, if this is not the last.
#[derive(Clone, Copy, Debug, PartialEq, Eq)]
pub struct Link {
    pub stamp: u32,
    pub next: Option<u16>,
}

// What a heap word says: tags 0 to 6, or no word of document 01, which is a value too, since every word of the heap says something (docs/DECISIONS.md, 44).
#[derive(Clone, Copy, Debug, PartialEq, Eq)]
pub enum Word {
    Empty,
    Filled(Cell),
    Linked(Link),
    Broken,
}

// A register: tags 0, 7 and 8.
#[derive(Clone, Copy, Debug, PartialEq, Eq)]
pub enum Register {
    Empty,
    Region(u32),
    Term(Ref),
}

// A step, ops 1 to 11 in their order, or none, which is answered as any other (docs/DECISIONS.md, 44). d, a and b are registers.
#[derive(Clone, Copy, Debug, PartialEq, Eq)]
pub enum Step {
    Refused,
    MakeRegion {
        d: u8,
    },
    KillRegion {
        a: u8,
    },
    MakeVar {
        d: u8,
        a: u8,
    },
    Integer {
        d: u8,
        a: u8,
        value: i32,
    },
    Structure {
        d: u8,
        a: u8,
        b: u8,
        functor: u16,
        arity: u8,
    },
    Unify {
        a: u8,
        b: u8,
        budget: u16,
    },
    Deref {
        d: u8,
        a: u8,
    },
    Destruct {
        d: u8,
        a: u8,
        functor: u16,
        arity: u8,
    },
    PushChoice,
    Cut,
    Backtrack,
}

// What a step answers.
#[derive(Clone, Copy, Debug, PartialEq, Eq)]
pub struct Answer {
    pub status: u8,
    pub kind: u8,
    pub pairs: u16,
    pub payload: u32,
}

// Why a step is refused, in the order of the statuses 1 to 11.
#[derive(Clone, Copy, Debug, PartialEq, Eq)]
pub enum Refusal {
    // unify, destruct: the terms differ
    Differ,
    // a word that is no step
    NoStep,
    // the register holds no region that is in the present copy
    NoRegion,
    // no term where there must be one, or a dead reference where one is followed
    Dead,
    NoPage,
    NoSlot,
    NoStamp,
    // as many copies are saved as may be
    TooManyCopies,
    // none is saved
    NoCopy,
    // unify's pairs are spent
    PairsSpent,
    // destruct: the term is an unbound variable
    Unbound,
}
