// The registers that hold the arguments of a structure: building one reads them, destruct writes them.

ghost use Rattle.std.specs.Prelude.{◌≡◌, ◌≤◌, ◌+◌, set, replicate, take, is_some, IfSome};
ghost use Rattle.words.specs.declared.Cell.TheVariants.{Head};
ghost use Rattle.words.specs.Words.{cell_word};
ghost use Rattle.words.specs.Exact.{in_range};
ghost use Rattle.store.specs.Rows.{present};
ghost use Rattle.terms.specs.Build.{arguments_live, argument_word, arguments_put, structure_words};
ghost use Rattle.terms.specs.Destruct.{terms_taken};

use crate::deref::live_term;
use store::View;
use store::memory::put;
use store::registers::{copy_number, register, set_register};
use words::steps::in_range;
use words::{Cell, Ref, Register};

// The reference in register i as an argument.
#[tactic(auto, unfolding(crate::specs::Build::argument_word))]
fn argument(tables: &[u64], i: u8) -> u64
    ensures { result ≡ argument_word tables.now i }
{
    u64::from(Cell::Argument(Ref::from(register(tables, copy_number(tables), i))))
}

// The arguments of a structure: as many registers, from register `first` on.
#[derive(Clone, Copy)]
pub struct Arguments {
    first: u8,
    arity: u8,
    ghost few: { arity ≤ 14 },
    ghost there: { first + arity ≤ 32 },
}

impl Arguments {
    // An arity over 14 and a register past 31 are no step.
    pub fn of(first: u8, arity: u8) -> Option<Arguments>
        ensures some { is_some result ≡ in_range first arity }
        ensures same { IfSome result (λ x. (x.first ≡ first) × (x.arity ≡ arity)) }
    {
        if in_range(first, arity) {
            Some(Arguments { first, arity })
        } else {
            None
        }
    }

    // Does each of them hold a term of a live region?
    #[tactic(auto, unfolding(crate::specs::Build::arguments_live))]
    pub fn live(self, view: &View<'_>, tables: &[u64]) -> bool
        ensures { result ≡ arguments_live self.arity self.first view.now.words.now tables.now view.now.turned.now }
    {
        (self.first..self.first + self.arity).all(|i| live_term(view, tables, i).is_some())
    }

    // What they hold goes to the words from 1 on.
    #[tactic(auto, using(crate::proofs::ArgumentWords::put_turn, crate::proofs::ArgumentWords::put_ends))]
    fn put(self, tables: &[u64], term: &mut [u64])
        ensures { term.new ≡ arguments_put tables.now self.arity self.first 1 term.old }
    {
        for k in 0..self.arity {
            put(term, k as usize + 1, argument(tables, self.first + k));
        }
    }

    // The words of a structure of them, its head and its arguments, in the first of 15, and zeros after them. There is no heap to put a list of them on.
    #[tactic(auto, using(crate::proofs::ArgumentWords::structure_words_lem))]
    pub fn structure(self, tables: &[u64], functor: u16) -> [u64; 15]
        ensures words { take (self.arity + 1) result ≡ structure_words functor self.arity self.first tables.now }
        ensures all { result ≡ arguments_put tables.now self.arity self.first 1 (set (replicate 15 0) 0 (cell_word 12 (Head functor self.arity))) }
    {
        let mut term = [0; 15];
        term[0] = u64::from(Cell::Head {
            functor,
            arity: self.arity,
        });
        self.put(tables, &mut term);
        term
    }

    // The references in the words after the head at address `head` go to them as they stand, as terms: none is followed, dead or not.
    #[tactic(auto, using(laws::proofs::Turns::turns), unfolding(crate::specs::Destruct::terms_taken))]
    pub fn take(self, view: &View<'_>, tables: &mut [u64], head: u16)
        ensures { tables.new ≡ terms_taken view.now.words.now (present tables.old) head self.first self.arity tables.old }
    {
        let n = copy_number(tables);
        for i in 0..self.arity {
            let r = Ref::from(view.word(head as usize + 1 + i as usize));
            set_register(tables, n, self.first + i, u64::from(Register::Term(r)));
        }
    }
}
