// A step of a run: each op by its function of the store or of the terms.

ghost use Rattle.std.specs.Prelude.{◌≡◌, true};
ghost use Rattle.words.specs.Answers.{told, told_done};
ghost use Rattle.store.specs.Memory.{memory};
ghost use Rattle.store.specs.Make.{stamp_given};
ghost use Rattle.terms.specs.Deref.{answer_of_seen};
ghost use Rattle.kuniqjaak.specs.Steps.{step_answer, step_tables, step_memory};

use crate::Limits;
use store::copies::push_choice;
use store::{Filling, Heap, View};
use terms::build::{integer, make_var, structure};
use terms::deref::deref_step;
use terms::destruct::destruct;
use terms::unify::unify;
use words::{Answer, Refusal, Step};

// A step that has nothing to tell but that it is done, or refused.
fn done(r: Result<(), Refusal>) -> Answer
    ensures { result ≡ told_done r }
{
    r.map_or_else(Answer::from, |()| Answer::plain(0))
}

// A region's stamp is told.
fn given(stamp: u32) -> Answer
    ensures { result ≡ stamp_given stamp }
{
    Answer {
        status: 0,
        kind: 0,
        pairs: 0,
        payload: stamp,
    }
}

#[tactic(auto, unfolding(crate::specs::Steps::step_answer, crate::specs::Steps::step_tables, crate::specs::Steps::step_memory))]
pub fn step(
    words: &mut [u64],
    tables: &mut [u64],
    born: &mut [u8],
    turned: &mut [u8],
    trail: &mut [u32; 4096],
    limits: Limits,
    s: Step,
) -> Answer
    ensures answer { result ≡ step_answer limits tables.old (memory words.old born.old turned.old) s }
    ensures tables { tables.new ≡ step_tables limits (memory words.old born.old turned.old) s tables.old }
    ensures memory { memory words.new born.new turned.new ≡ step_memory limits tables.old s (memory words.old born.old turned.old) }
{
    let pages = limits.pages;
    match s {
        Step::Refused => Answer::from(Refusal::NoStep),
        Step::MakeRegion { d } => {
            let mut heap = Filling {
                words,
                born,
                turned,
                pages,
            };
            heap.make_region(tables, limits.slots, d)
                .map_or_else(Answer::from, given)
        }
        Step::KillRegion { a } => {
            let mut heap = Heap {
                words,
                born,
                turned,
                pages,
            };
            done(heap.kill_region(tables, a))
        }
        Step::MakeVar { d, a } => {
            let mut heap = Filling {
                words,
                born,
                turned,
                pages,
            };
            done(make_var(&mut heap, tables, d, a))
        }
        Step::Integer { d, a, value } => {
            let mut heap = Filling {
                words,
                born,
                turned,
                pages,
            };
            done(integer(&mut heap, tables, d, a, value))
        }
        Step::Structure {
            d,
            a,
            b,
            functor,
            arity,
        } => {
            let mut heap = Filling {
                words,
                born,
                turned,
                pages,
            };
            done(structure(&mut heap, tables, d, a, b, functor, arity))
        }
        Step::Unify { a, b, budget } => {
            let mut heap = Heap {
                words,
                born,
                turned,
                pages,
            };
            Answer::from(unify(&mut heap, tables, trail, a, b, budget))
        }
        Step::Deref { d, a } => {
            let view = View {
                words,
                born,
                turned,
                pages,
            };
            deref_step(&view, tables, d, a).map_or_else(Answer::from, Answer::from)
        }
        Step::Destruct {
            d,
            a,
            functor,
            arity,
        } => {
            let view = View {
                words,
                born,
                turned,
                pages,
            };
            done(destruct(&view, tables, d, a, functor, arity))
        }
        Step::PushChoice => done(push_choice(tables, limits.choices)),
        Step::Cut => {
            let mut heap = Heap {
                words,
                born,
                turned,
                pages,
            };
            done(heap.cut(tables))
        }
        Step::Backtrack => {
            let mut heap = Heap {
                words,
                born,
                turned,
                pages,
            };
            done(heap.backtrack(tables))
        }
    }
}
