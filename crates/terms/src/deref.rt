// Deref follows bound variables to a word of tag 1, 3 or 4. A reference is dead if its region is not in the present copy.

ghost use Rattle.std.specs.Prelude.{◌≡◌, ◌%◌, ◌^◌};
ghost use Rattle.words.specs.Answers.{told};
ghost use Rattle.machine.specs.Run.{kind_of, payload_of};
ghost use Rattle.terms.specs.Deref.{answer_of_seen, ends_at, deref_of, found_at, operand_at, deref_answer, deref_tables};

use machine::Found;
use store::View;
use store::registers::{copy_number, held, set_register};
use words::{Answer, Cell, Ref, Refusal, Register, Word};

// A cell at r that is no bound variable. Tag 5 is no term of its own, so that no reference may name it.
fn ends_at(r: Ref, c: Cell) -> Found
    ensures { result ≡ ends_at r c }
{
    match c {
        Cell::Unbound | Cell::Int(_) | Cell::Head { .. } => Found::At(r, c),
        Cell::Bound(_) | Cell::Argument(_) => Found::Dead,
    }
}

// In a sound heap a chain of variables never turns back, so that it is shorter than the heap; in any other the count ends the search.
#[tactic(auto, using(crate::proofs::Following::deref_turn, crate::proofs::Following::deref_spent), unfolding(crate::specs::Deref::deref_of))]
pub fn deref(view: &View<'_>, r: Ref) -> Found
    ensures { result ≡ deref_of view.now.words.now view.now.turned.now r }
{
    let mut r = r;
    for _ in 0..view.words.len() {
        if !view.live(r) {
            return Found::Dead;
        }
        let Word::Filled(c) = Word::from(view.word(r.address as usize)) else {
            return Found::Dead;
        };
        let Cell::Bound(s) = c else {
            return ends_at(r, c);
        };
        r = s;
    }
    Found::Dead
}

// The term in register i, followed. A register without a term is as one with a dead reference: status 4.
#[tactic(auto, unfolding(crate::specs::Deref::found_at))]
pub fn deref_register(view: &View<'_>, tables: &[u64], i: u8) -> Found
    ensures { result ≡ found_at view.now.words.now tables.now view.now.turned.now i }
{
    match held(tables, i) {
        Some(Register::Term(r)) => deref(view, r),
        _ => Found::Dead,
    }
}

// The term in register i, if its region is in the present copy. It is not followed.
#[tactic(auto, unfolding(crate::specs::Deref::operand_at))]
pub fn live_term(view: &View<'_>, tables: &[u64], i: u8) -> Option<Ref>
    ensures { result ≡ operand_at view.now.words.now tables.now view.now.turned.now i }
{
    match held(tables, i) {
        Some(Register::Term(r)) if view.live(r) => Some(r),
        _ => None,
    }
}

// The kind of an answer, a number that callers read. It is the tag of the cell's word only where an arity fits its four bits.
#[tactic(auto, unfolding(machine::specs::Run::kind_of, words::specs::Fit::cell_tag))]
fn kind(c: Cell) -> u8
    ensures { result ≡ kind_of c }
{
    match c {
        Cell::Unbound => 1,
        Cell::Bound(_) => 2,
        Cell::Int(_) => 3,
        Cell::Head { .. } => 4,
        Cell::Argument(_) => 5,
    }
}

// An integer's 32 bits, or functor and arity in the top 20. An arity that is found is at most 14, so that the top 20 bits have room for both.
#[tactic(auto, unfolding(machine::specs::Run::payload_of))]
fn payload(c: Cell) -> u32
    ensures { result ≡ payload_of c % 2 ^ 32 }
{
    match c {
        Cell::Unbound | Cell::Bound(_) | Cell::Argument(_) => 0,
        Cell::Int(v) => v.cast_unsigned(),
        Cell::Head { functor, arity } => ((functor as u64 * 65536 + arity as u64 * 4096)
            % 4294967296) as u32,
    }
}

// What deref tells of the cell that it found.
#[derive(Clone, Copy, Debug, PartialEq, Eq)]
pub struct Seen {
    pub kind: u8,
    pub payload: u32,
}

impl From<Seen> for Answer {
    ghost from_gives = { λ s a. a ≡ answer_of_seen s };

    fn from(s: Seen) -> Answer {
        Answer {
            status: 0,
            kind: s.kind,
            pairs: 0,
            payload: s.payload,
        }
    }
}

// Op 7: register d refers to the cell that is found.
#[tactic(auto, using(crate::proofs::FoundWords::found_payload), unfolding(crate::specs::Deref::deref_answer, crate::specs::Deref::deref_tables))]
pub fn deref_step(view: &View<'_>, tables: &mut [u64], d: u8, a: u8) -> Result<Seen, Refusal>
    ensures answer { told (λ s. answer_of_seen s) result ≡ deref_answer view.now.words.now tables.old view.now.turned.now a }
    ensures tables { tables.new ≡ deref_tables view.now.words.now tables.old view.now.turned.now d a }
{
    let Found::At(r, c) = deref_register(view, tables, a) else {
        return Err(Refusal::Dead);
    };
    let n = copy_number(tables);
    set_register(tables, n, d, u64::from(Register::Term(r)));
    Ok(Seen {
        kind: kind(c),
        payload: payload(c),
    })
}
