// Step words: op 4, d 5, a 5, b 5, then fields. What a step does not name is zero.

ghost use Rattle.std.specs.Prelude.{◌≡◌, ◌%◌, ◌^◌};
ghost use Rattle.words.specs.Steps.{fields, shape, step_word, decode};
ghost use Rattle.words.specs.Clip.{clipped_step, register};
ghost use Rattle.words.specs.Exact.{exact_step, in_range, accepted};

use crate::Step;
use crate::parts::{bits, exactly, integer};

// The place of each field: its lowest bit.
const OP_AT: u64 = 1 << 60;

const D_AT: u64 = 1 << 55;

const A_AT: u64 = 1 << 50;

const B_AT: u64 = 1 << 45;

const BUDGET_AT: u64 = 1 << 33;

const FUNCTOR_AT: u64 = 1 << 29;

const ARITY_AT: u64 = 1 << 25;

const VALUE_AT: u64 = 1 << 13;

// The op and the three registers, each register modulo its width.
fn frame(op: u64, d: u8, a: u8, b: u8) -> u64
    ensures { result ≡ fields (op % 2 ^ 4) (register d) (register a) (register b) 0 }
{
    op % 16 * OP_AT + (d % 32) as u64 * D_AT + (a % 32) as u64 * A_AT + (b % 32) as u64 * B_AT
}

fn shape(functor: u16, arity: u8) -> u64
    ensures { result ≡ shape functor (arity % 2 ^ 4) }
{
    functor as u64 * FUNCTOR_AT + (arity % 16) as u64 * ARITY_AT
}

// A field that is wider here than in the word is taken modulo its width.
impl From<Step> for u64 {
    ghost from_gives = { λ s w. w ≡ step_word (clipped_step s) };

    #[tactic(auto, unfolding(crate::specs::Steps::step_word, crate::specs::Clip::clipped_step))]
    fn from(s: Step) -> u64 {
        match s {
            Step::Refused => 0,
            Step::MakeRegion { d } => frame(1, d, 0, 0),
            Step::KillRegion { a } => frame(2, 0, a, 0),
            Step::MakeVar { d, a } => frame(3, d, a, 0),
            Step::Integer { d, a, value } => frame(4, d, a, 0)
                + value.cast_unsigned() as u64 * VALUE_AT,
            Step::Structure {
                d,
                a,
                b,
                functor,
                arity,
            } => frame(5, d, a, b) + shape(functor, arity),
            Step::Unify { a, b, budget } => frame(6, 0, a, b) + (budget % 4096) as u64 * BUDGET_AT,
            Step::Deref { d, a } => frame(7, d, a, 0),
            Step::Destruct {
                d,
                a,
                functor,
                arity,
            } => frame(8, d, a, 0) + shape(functor, arity),
            Step::PushChoice => 9 * OP_AT,
            Step::Cut => 10 * OP_AT,
            Step::Backtrack => 11 * OP_AT,
        }
    }
}

// May a step have so many arguments, in the registers from the first on? An arity is 0 to 14, and no register is past 31.
pub fn in_range(first: u8, arity: u8) -> bool
    ensures { result ≡ in_range first arity }
{
    arity <= 14 && first as u16 + arity as u16 <= 32
}

// The step that a word says, if it says one. Op 0 and ops 12 to 15 are no steps. The arguments of a structure are in the registers from b on, those that
// destruct gives go to the registers from d on.
#[tactic(auto, using(crate::proofs::StepCode::by_op, crate::proofs::StepCode::none_accepted, crate::proofs::StepCode::accepted_whole))]
fn said(w: u64) -> Option<Step>
    ensures { result ≡ accepted (decode w) }
{
    let d = bits(w, 55, 5) as u8;
    let a = bits(w, 50, 5) as u8;
    let b = bits(w, 45, 5) as u8;
    let functor = bits(w, 29, 16) as u16;
    let arity = bits(w, 25, 4) as u8;
    let value = integer(w, 13);
    let budget = bits(w, 33, 12) as u16;
    match bits(w, 60, 4) {
        1 => exactly(w, Step::MakeRegion { d }),
        2 => exactly(w, Step::KillRegion { a }),
        3 => exactly(w, Step::MakeVar { d, a }),
        4 => exactly(w, Step::Integer { d, a, value }),
        5 if in_range(b, arity) => exactly(
            w,
            Step::Structure {
                d,
                a,
                b,
                functor,
                arity,
            },
        ),
        6 => exactly(w, Step::Unify { a, b, budget }),
        7 => exactly(w, Step::Deref { d, a }),
        8 if in_range(d, arity) => exactly(
            w,
            Step::Destruct {
                d,
                a,
                functor,
                arity,
            },
        ),
        9 => exactly(w, Step::PushChoice),
        10 => exactly(w, Step::Cut),
        11 => exactly(w, Step::Backtrack),
        12..=15 => None,
        _ => None,
    }
}

impl From<u64> for Step {
    ghost from_gives = { λ w s. s ≡ decode w };

    #[tactic(auto, using(crate::proofs::StepCode::accepted_back))]
    fn from(w: u64) -> Step {
        said(w).unwrap_or(Step::Refused)
    }
}
