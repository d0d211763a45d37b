// The cells of a held page: whole terms, no gap before the fill's end, marks in order, references that name filled words in every copy.

ghost use Rattle.std.specs.Prelude.{◌≡◌, ◌+◌, ◌-◌, ◌*◌};
ghost use Rattle.audit.specs.Session.{session_of, place};
ghost use Rattle.audit.specs.Cells.{blank, all_blank, more_after, fresh_ok, turned_ok, bound_ok, argument_ok, cell_ok, born_ok, filled_ok, rest_ok, cells_ok};

use crate::{CopyRange, Fill, Home, Place, Session};
use words::{Cell, Ref, Word};

#[tactic(auto, unfolding(crate::specs::Cells::more_after))]
fn more_after(c: Cell, more: u8) -> u8
    ensures { result ≡ more_after c more }
{
    match c {
        Cell::Unbound | Cell::Bound(_) | Cell::Int(_) => 0,
        Cell::Head { functor: _, arity } => arity,
        Cell::Argument(_) => more.saturating_sub(1),
    }
}

// A word that starts a term and is no bound variable.
fn fresh_ok(at: Place, more: u8) -> bool
    ensures { result ≡ fresh_ok at more }
{
    more == 0 && at.turned == 0
}

fn born_ok(home: Home, at: Place, last: u8) -> bool
    ensures { result ≡ born_ok home at last }
{
    last <= at.born && at.born <= home.full
}

// A bound variable was bound in a copy that has it.
fn turned_ok(home: Home, at: Place, more: u8) -> bool
    ensures { result ≡ turned_ok home at more }
{
    more == 0 && at.born <= at.turned && at.turned <= home.newest
}

impl<'a> Session<'a> {
    fn place(&self, a: usize) -> Place
        ensures { result ≡ place (session_of self.now) a }
    {
        Place {
            address: a,
            born: self.view.born(a),
            turned: self.view.turned(a),
        }
    }

    fn blank(&self, a: usize) -> bool
        ensures { result ≡ blank (session_of self.now) a }
    {
        self.view.word(a) == 0 && self.view.born(a) == 0 && self.view.turned(a) == 0
    }

    // As many words of page p as `count` says, from word i on.
    #[tactic(auto, unfolding(crate::specs::Cells::all_blank))]
    pub fn all_blank(&self, count: u8, p: u32, i: u8) -> bool
        ensures { result ≡ all_blank (session_of self.now) count (p * 16 + i) }
    {
        let a = p as usize * 16 + i as usize;
        (a..a + count as usize).all(|a| self.blank(a))
    }

    #[tactic(auto, unfolding(crate::specs::Cells::bound_ok))]
    fn bound_ok(&self, home: Home, r: Ref, at: Place, more: u8) -> bool
        ensures { result ≡ bound_ok (session_of self.now) home r at more }
    {
        let range = CopyRange {
            since: at.turned,
            upto: home.newest,
        };
        turned_ok(home, at, more)
            && self.ref_ok(r, range)
            && self.order_ok(home.stamp, at.address, r, range)
    }

    // An argument is filled with its structure's head, in the same copy.
    #[tactic(auto, unfolding(crate::specs::Cells::argument_ok))]
    fn argument_ok(&self, home: Home, r: Ref, at: Place, fill: Fill) -> bool
        ensures { result ≡ argument_ok (session_of self.now) home r at fill }
    {
        let range = CopyRange {
            since: at.born,
            upto: home.newest,
        };
        fill.more != 0 && at.turned == 0 && at.born == fill.last && self.ref_ok(r, range)
    }

    #[tactic(auto, unfolding(crate::specs::Cells::cell_ok))]
    fn cell_ok(&self, home: Home, c: Cell, at: Place, fill: Fill) -> bool
        ensures { result ≡ cell_ok (session_of self.now) home c at fill }
    {
        match c {
            Cell::Unbound | Cell::Int(_) | Cell::Head { .. } => fresh_ok(at, fill.more),
            Cell::Bound(r) => self.bound_ok(home, r, at, fill.more),
            Cell::Argument(r) => self.argument_ok(home, r, at, fill),
        }
    }

    #[tactic(auto, unfolding(crate::specs::Cells::filled_ok))]
    fn filled_ok(&self, home: Home, c: Cell, at: Place, fill: Fill) -> bool
        ensures { result ≡ filled_ok (session_of self.now) home c at fill }
    {
        born_ok(home, at, fill.last) && self.cell_ok(home, c, at, fill)
    }

    #[tactic(auto, unfolding(crate::specs::Cells::rest_ok))]
    fn rest_ok(&self, more: u8, count: u8, p: u32, i: u8) -> bool
        ensures { result ≡ rest_ok (session_of self.now) more count (p * 16 + i) }
    {
        more == 0 && self.all_blank(count, p, i)
    }

    // The words of page p from word i on; `fill` says what was seen of the words before. A loop with that state would need the definition again as its invariant.
    #[tactic(auto, unfolding(crate::specs::Cells::cells_ok))]
    pub fn cells_ok(&self, home: Home, p: u32, i: u8, fill: Fill) -> bool
        ensures { result ≡ cells_ok (session_of self.now) home (16 - i) (p * 16 + i) fill }
    {
        if 16 <= i {
            return fill.more == 0;
        }
        let at = self.place(p as usize * 16 + i as usize);
        let w = self.view.word(at.address);
        if w == 0 {
            return self.rest_ok(fill.more, 16 - i, p, i);
        }
        let Word::Filled(c) = Word::from(w) else {
            return false;
        };
        let after = Fill {
            more: more_after(c, fill.more),
            last: at.born,
        };
        self.filled_ok(home, c, at, fill) && self.cells_ok(home, p, i + 1, after)
    }
}
