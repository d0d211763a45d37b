// The words of the heap: a tag of 4 bits, then its fields. Each field is read by its place and its width.

ghost use Rattle.std.specs.Prelude.{◌≡◌, eqb};
ghost use Rattle.words.specs.Fields.{bits};
ghost use Rattle.words.specs.Words.{ref_bits, cell_word, heap_word, ref_of, next_of, link_of, unpack_heap};
ghost use Rattle.words.specs.declared.Word.{Word};
ghost use Rattle.words.specs.declared.Word.TheVariants.{Linked};
ghost use Rattle.words.specs.Exact.{exact_word, head_of, unbroken};

use crate::parts::{bits, exactly, integer};
use crate::{Cell, Link, Ref, Word};

// The place of each field: its lowest bit.
pub const TAG_AT: u64 = 1 << 60;

pub const STAMP_AT: u64 = 1 << 28;

const ADDRESS_AT: u64 = 1 << 16;

const HAS_NEXT_AT: u64 = 1 << 27;

const NEXT_AT: u64 = 1 << 19;

const FUNCTOR_AT: u64 = 1 << 44;

const ARITY_AT: u64 = 1 << 40;

// The tag of each kind of word, in its place
const UNBOUND_TAG: u64 = TAG_AT;

const BOUND_TAG: u64 = 2 * TAG_AT;

const INT_TAG: u64 = 3 * TAG_AT;

const HEAD_TAG: u64 = 4 * TAG_AT;

const ARGUMENT_TAG: u64 = 5 * TAG_AT;

pub const LINK_TAG: u64 = 6 * TAG_AT;

pub fn tag(w: u64) -> u8
    ensures { result ≡ bits 60 4 w }
{
    bits(w, 60, 4) as u8
}

pub fn stamp(w: u64) -> u32
    ensures { result ≡ bits 28 32 w }
{
    bits(w, 28, 32) as u32
}

pub fn has_next(w: u64) -> bool
    ensures { result ≡ eqb (bits 27 1 w) 1 }
{
    bits(w, 27, 1) == 1
}

pub fn next_page(w: u64) -> u16
    ensures { result ≡ bits 19 8 w }
{
    bits(w, 19, 8) as u16
}

// The next page that a link names, if it has one.
pub fn next(w: u64) -> Option<u16>
    ensures { result ≡ next_of 12 w }
{
    if has_next(w) {
        Some(next_page(w))
    } else {
        None
    }
}

// The reference in a word of tag 2, 5 or 8.
impl From<u64> for Ref {
    ghost from_gives = { λ w r. r ≡ ref_of 12 w };

    fn from(w: u64) -> Ref {
        Ref {
            stamp: stamp(w),
            address: bits(w, 16, 12) as u16,
        }
    }
}

// The bits of a reference, without a tag.
impl From<Ref> for u64 {
    ghost from_gives = { λ r w. w ≡ ref_bits 12 r };

    fn from(r: Ref) -> u64 {
        r.stamp as u64 * STAMP_AT + r.address as u64 * ADDRESS_AT
    }
}

impl From<Cell> for u64 {
    ghost from_gives = { λ c w. w ≡ cell_word 12 c };

    #[tactic(auto, unfolding(crate::specs::Words::cell_word))]
    fn from(c: Cell) -> u64 {
        match c {
            Cell::Unbound => UNBOUND_TAG,
            Cell::Bound(r) => BOUND_TAG + u64::from(r),
            Cell::Int(v) => INT_TAG + v.cast_unsigned() as u64 * STAMP_AT,
            Cell::Head { functor, arity } => HEAD_TAG
                + functor as u64 * FUNCTOR_AT
                + arity as u64 * ARITY_AT,
            Cell::Argument(r) => ARGUMENT_TAG + u64::from(r),
        }
    }
}

impl From<Link> for u64 {
    ghost from_gives = { λ l w. w ≡ heap_word 12 (Linked l) };

    #[tactic(auto, unfolding(crate::specs::Words::heap_word, crate::specs::Words::link_word))]
    fn from(l: Link) -> u64 {
        let word = LINK_TAG + l.stamp as u64 * STAMP_AT;
        match l.next {
            Some(next) => word + HAS_NEXT_AT + next as u64 * NEXT_AT,
            None => word,
        }
    }
}

impl From<Word> for u64 {
    ghost from_gives = { λ x w. w ≡ heap_word 12 x };

    #[tactic(auto, unfolding(crate::specs::Words::heap_word))]
    fn from(x: Word) -> u64 {
        match x {
            Word::Empty => 0,
            Word::Filled(c) => u64::from(c),
            Word::Linked(l) => u64::from(l),
            Word::Broken => 0,
        }
    }
}

fn link(w: u64) -> Link
    ensures { result ≡ link_of 12 w }
{
    Link {
        stamp: stamp(w),
        next: next(w),
    }
}

// A structure's head, if its arity is 0 to 14.
#[tactic(auto, using(crate::proofs::Unpacking::told_whole), unfolding(crate::specs::Exact::head_of))]
fn head(w: u64) -> Option<Word>
    ensures { result ≡ unbroken (head_of 12 w) }
{
    let functor = bits(w, 44, 16) as u16;
    let arity = bits(w, 40, 4) as u8;
    if arity <= 14 {
        exactly(w, Word::Filled(Cell::Head { functor, arity }))
    } else {
        None
    }
}

// The word of the heap that a word says, if it says one.
#[tactic(auto, using(crate::proofs::Unpacking::by_tag, crate::proofs::Unpacking::none_said, crate::proofs::Unpacking::told_whole), unfolding(crate::specs::Exact::exact_word))]
fn said(w: u64) -> Option<Word>
    ensures { result ≡ unbroken (unpack_heap 12 w) }
{
    let value = integer(w, 28);
    match tag(w) {
        0 => exactly(w, Word::Empty),
        1 => exactly(w, Word::Filled(Cell::Unbound)),
        2 => exactly(w, Word::Filled(Cell::Bound(Ref::from(w)))),
        3 => exactly(w, Word::Filled(Cell::Int(value))),
        4 => head(w),
        5 => exactly(w, Word::Filled(Cell::Argument(Ref::from(w)))),
        6 => exactly(w, Word::Linked(link(w))),
        _ => None,
    }
}

impl From<u64> for Word {
    ghost from_gives = { λ w x. x ≡ unpack_heap 12 w };

    #[tactic(auto, using(crate::proofs::Unpacking::unbroken_back))]
    fn from(w: u64) -> Word {
        said(w).unwrap_or(Word::Broken)
    }
}
