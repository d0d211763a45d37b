// Op 6: unification takes pairs depth first, arguments left to right. Taking a pair and walking the arguments call each other.

ghost use Rattle.std.specs.Prelude.{◌≡◌, [], ◌∷◌, ◌+◌, ◌-◌, ◌%◌, ◌^◌, ◌≤◌, ◌<◌, length, get_or, set};
ghost use Rattle.words.specs.Words.{ref_of};
ghost use Rattle.machine.specs.Unify.{younger};
ghost use Rattle.store.specs.Memory.{Kept};
ghost use Rattle.terms.specs.Unify.{meet_of, look_of, marked, refs, arg_items, unified, unify_terms, operands_at, unify_of, answer_of_attempt};

use crate::deref::{deref, live_term};
use machine::Found;
use store::memory::{put, read};
use store::registers::copy_number;
use store::{Heap, View};
use words::{Answer, Cell, Ref, Refusal};

// What a pair comes to, if it is not refused: equal terms, a variable to bind to a cell, or the arguments of two structures (the addresses of their heads, and
// how many arguments each has).
#[derive(Clone, Copy, Debug, PartialEq, Eq)]
pub enum Taken {
    Same,
    Bind(Ref, Ref),
    Arguments(u16, u16, u8),
}

// What came of a unification, and how many pairs it took.
#[derive(Clone, Copy, Debug, PartialEq, Eq)]
pub struct Attempt {
    pub pairs: u16,
    pub outcome: Result<(), Refusal>,
}

impl From<Attempt> for Answer {
    ghost from_gives = { λ t a. a ≡ answer_of_attempt t };

    fn from(t: Attempt) -> Answer {
        Answer {
            status: match t.outcome {
                Ok(()) => 0,
                Err(e) => u8::from(e),
            },
            kind: 0,
            pairs: t.pairs,
            payload: 0,
        }
    }
}

// An entry of the trail: a variable that was bound, and the turned mark that it had.
#[derive(Clone, Copy, Debug, PartialEq, Eq)]
struct Entry {
    address: u16,
    mark: u8,
}

impl From<Entry> for u32 {
    ghost use Rattle.terms.specs.Took.{entry_of};

    ghost from_gives = { λ e w. w ≡ entry_of e.address e.mark };

    fn from(e: Entry) -> u32 {
        e.address as u32 + e.mark as u32 * 65536
    }
}

impl From<u32> for Entry {
    ghost use Rattle.terms.specs.Took.{mark_back};

    ghost from_gives = { λ w e. (e.address ≡ w % 2 ^ 16) × (e.mark ≡ mark_back w) };

    #[tactic(auto, unfolding(crate::specs::Took::mark_back))]
    fn from(w: u32) -> Entry {
        Entry {
            address: (w % 65536) as u16,
            mark: (w / 65536 % 256) as u8,
        }
    }
}

// A unification in the present copy, n: how many entries of the trail it has used, how many pairs it may still take. The trail has room for as many more.
#[derive(Drop)]
struct Unifier<'a, 'h> {
    heap: &'a mut Heap<'h>,
    trail: &'a mut [u32],
    n: u8,
    bound: u16,
    left: u16,
    ghost room: { bound + left ≤ 4096 },
    ghost long: { 4096 ≤ length trail.now },
}

// Is the variable r the younger of two? The order of references is that of age.
#[tactic(auto, unfolding(machine::specs::Unify::younger))]
fn younger(r: Ref, s: Ref) -> bool
    ensures { result ≡ younger r s }
{
    s < r
}

// Two cells that are not the same.
#[tactic(auto, using(crate::proofs::Meeting::ints_same, crate::proofs::Meeting::ints_differ), unfolding(crate::specs::Unify::meet_of))]
fn meet(r: Ref, v: Cell, s: Ref, w: Cell) -> Result<Taken, Refusal>
    ensures { result ≡ meet_of r v s w }
{
    match (v, w) {
        (Cell::Unbound, Cell::Unbound) => {
            if younger(r, s) {
                Ok(Taken::Bind(r, s))
            } else {
                Ok(Taken::Bind(s, r))
            }
        }
        (Cell::Unbound, Cell::Int(_) | Cell::Head { .. }) => Ok(Taken::Bind(r, s)),
        (Cell::Int(_) | Cell::Head { .. }, Cell::Unbound) => Ok(Taken::Bind(s, r)),
        (Cell::Int(x), Cell::Int(y)) if x == y => Ok(Taken::Same),
        (
            Cell::Head {
                functor: f,
                arity: m,
            },
            Cell::Head {
                functor: g,
                arity: k,
            },
        ) if f == g && m == k => { Ok(Taken::Arguments(r.address, s.address, m)) }
        _ => Err(Refusal::Differ),
    }
}

// Both registers must hold a term of a live region.
#[tactic(auto, unfolding(crate::specs::Unify::operands_at))]
fn both_terms(view: &View<'_>, tables: &[u64], a: u8, b: u8) -> Option<(Ref, Ref)>
    ensures { result ≡ operands_at view.now.words.now tables.now view.now.turned.now a b }
{
    let l = live_term(view, tables, a)?;
    let r = live_term(view, tables, b)?;
    Some((l, r))
}

impl<'a, 'h> Unifier<'a, 'h> {
    ghost use Rattle.terms.specs.Took.{TookBy, Stays, BoundTo, word_back, mark_back, undo_of};

    // The left side is followed, then the right.
    #[tactic(auto, unfolding(crate::specs::Unify::look_of, crate::specs::Unify::both_found))]
    fn look(&self, l: Ref, r: Ref) -> Result<Taken, Refusal>
        ensures { result ≡ look_of self.now.heap.now.words.now self.now.heap.now.turned.now l r }
    {
        let view = self.heap.view();
        let Found::At(p, v) = deref(&view, l) else {
            return Err(Refusal::Dead);
        };
        let Found::At(q, w) = deref(&view, r) else {
            return Err(Refusal::Dead);
        };
        if p.address == q.address {
            Ok(Taken::Same)
        } else {
            meet(p, v, q, w)
        }
    }

    // The reference in argument number k of the structure whose head is at a.
    fn argument(&self, a: u16, k: u8) -> Ref
        ensures { result ≡ ref_of 12 (get_or self.now.heap.now.words.now (a + (k + 1)) 0) }
    {
        Ref::from(self.heap.view().word(a as usize + (k as usize + 1)))
    }

    // The variable at r is bound to the cell at s. The trail's next entry is the variable, and the mark that it had; that it is used is counted by the caller, who
    // has taken a pair for it.
    #[tactic(auto, unfolding(store::specs::Memory::turn_at))]
    fn bind(&mut self, r: Ref, s: Ref)
        ensures bound { BoundTo self.old.n r s self.old.bound self.old.left self.old.heap.now.words.now self.old.heap.now.turned.now self.old.trail.now
            0 (self.new.bound + 1) self.new.left self.new.heap.now.words.now self.new.heap.now.turned.now self.new.trail.now }
        ensures stays { Stays self.old self.new }
    {
        let a = r.address as usize;
        let (n, k) = (self.n, self.bound as usize);
        let mark = self.heap.view().turned(a);
        put(
            self.trail,
            k,
            u32::from(Entry {
                address: r.address,
                mark,
            }),
        );
        self.heap.turn_at(n, a, u64::from(Cell::Bound(s)));
    }

    // One pair is taken: if the budget's number has been taken already, it stops with 10; else the pair is counted.
    #[cycle(take_pair_walk_args)]
    #[tactic(auto, using(crate::proofs::Cycle::walk_falls))]
    fn take_pair(&mut self, l: Ref, r: Ref) -> Result<(), Refusal>
        ensures took { TookBy (refs l r ∷ []) self.old result self.new }
        ensures stays { Stays self.old self.new }
    {
        if self.left == 0 {
            return Err(Refusal::PairsSpent);
        }
        self.left -= 1;
        match self.look(l, r)? {
            Taken::Same => Ok(()),
            Taken::Bind(s, t) => {
                self.bind(s, t);
                self.bound += 1;
                Ok(())
            }
            Taken::Arguments(a, b, m) => self.walk_args(a, b, 0, m),
        }
    }

    // The pairs of arguments from number i on are taken, of the structures whose heads are at a and b; each has m arguments.
    #[cycle(take_pair_walk_args)]
    fn walk_args(&mut self, a: u16, b: u16, i: u8, m: u8) -> Result<(), Refusal>
        ensures took { TookBy (arg_items a b i (m - i)) self.old result self.new }
        ensures stays { Stays self.old self.new }
    {
        if i < m {
            let l = self.argument(a, i);
            let r = self.argument(b, i);
            self.take_pair(l, r)?;
            self.walk_args(a, b, i + 1, m)
        } else {
            Ok(())
        }
    }

    // Entry k of the trail.
    fn entry(&self, k: u16) -> Entry
        ensures address { result.address ≡ get_or self.now.trail.now k 0 % 2 ^ 16 }
        ensures mark { result.mark ≡ mark_back (get_or self.now.trail.now k 0) }
    {
        Entry::from(read(self.trail, k as usize, 0))
    }

    // Its variable is unbound again, and has its old mark.
    #[tactic(auto, unfolding(crate::specs::Took::word_back, store::specs::Memory::turn_at))]
    fn undo_entry(&mut self, k: u16)
        ensures words { self.new.heap.now.words.now ≡ set self.old.heap.now.words.now (get_or self.old.trail.now k 0 % 2 ^ 16) (word_back (get_or self.old.trail.now k 0)) }
        ensures turned { self.new.heap.now.turned.now ≡ set self.old.heap.now.turned.now (get_or self.old.trail.now k 0 % 2 ^ 16) (mark_back (get_or self.old.trail.now k 0)) }
        ensures trail { self.new.trail.now ≡ self.old.trail.now }
        ensures counts { (self.new.bound ≡ self.old.bound) × (self.new.left ≡ self.old.left) }
        ensures stays { Stays self.old self.new }
    {
        let e = self.entry(k);
        self.heap
            .turn_at(e.mark, e.address as usize, u64::from(Cell::Unbound));
    }

    // The bindings are undone, the last first.
    #[tactic(auto, using(crate::proofs::Whole::undo_turn, crate::proofs::Whole::undo_spent))]
    fn undo(&mut self)
        ensures words { self.new.heap.now.words.now ≡ undo_of word_back self.old.bound self.old.trail.now self.old.heap.now.words.now }
        ensures turned { self.new.heap.now.turned.now ≡ undo_of mark_back self.old.bound self.old.trail.now self.old.heap.now.turned.now }
        ensures trail { self.new.trail.now ≡ self.old.trail.now }
        ensures counts { (self.new.bound ≡ self.old.bound) × (self.new.left ≡ self.old.left) }
        ensures stays { Stays self.old self.new }
    {
        for k in (0..self.bound).rev() {
            self.undo_entry(k);
        }
    }
}

// Op 6. The trail is scratch: it has room for an entry for each pair, and what it holds afterwards is not told. Unless the outcome is Ok, no binding remains.
#[tactic(auto, using(crate::proofs::Whole::unify_done, crate::proofs::Whole::unify_back), unfolding(crate::specs::Unify::unify_of))]
pub fn unify(
    heap: &mut Heap<'_>,
    tables: &[u64],
    trail: &mut [u32],
    a: u8,
    b: u8,
    budget: u16,
) -> Attempt
    requires { 4096 ≤ length trail.old }
    ensures unified { unified (answer_of_attempt result) heap.new.words.now heap.new.turned.now
        ≡ unify_of heap.old.words.now tables.now heap.old.turned.now a b budget }
    ensures born { heap.new.born.now ≡ heap.old.born.now }
    ensures kept { Kept heap.old heap.new }
{
    let Some((l, r)) = both_terms(&heap.view(), tables, a, b) else {
        return Attempt {
            pairs: 0,
            outcome: Err(Refusal::Dead),
        };
    };
    let mut unifier = Unifier {
        heap,
        trail,
        n: copy_number(tables),
        bound: 0,
        left: budget % 4096,
    };
    let most = unifier.left;
    let outcome = unifier.take_pair(l, r);
    let pairs = most - unifier.left;
    if outcome.is_err() {
        unifier.undo();
    }
    Attempt { pairs, outcome }
}
