// A run: each step is answered in order.

ghost use Rattle.std.specs.Prelude.{◌≡◌, ◌≤◌, ◌++◌, length, drop};
ghost use Rattle.store.specs.Memory.{memory};
ghost use Rattle.kuniqjaak.specs.Runs.{session, answers, final};

use crate::Limits;
use crate::steps::step;
use store::memory::put;
use words::Step;

// The steps one after another; the trail is scratch memory that each unification begins anew.
#[tactic(auto, using(crate::proofs::Session::final_turn, crate::proofs::Session::final_ends, crate::proofs::Session::told_turn, crate::proofs::Session::told_ends, crate::proofs::Session::told_all))]
pub fn run_steps(
    heap: &mut [u64],
    tables: &mut [u64],
    born: &mut [u8],
    turned: &mut [u8],
    limits: Limits,
    steps: &[u64],
    answered: &mut [u64],
)
    requires { length steps.now ≤ length answered.old }
    ensures session { session (memory heap.new born.new turned.new) tables.new ≡ final limits steps.now (session (memory heap.old born.old turned.old) tables.old) }
    ensures answered { answered.new ≡ answers limits steps.now (session (memory heap.old born.old turned.old) tables.old) ++ drop (length steps.now) answered.old }
{
    let mut trail = [0; 4096];
    for (i, w) in steps.iter().enumerate() {
        let a = step(
            heap,
            tables,
            born,
            turned,
            &mut trail,
            limits,
            Step::from(*w),
        );
        put(answered, i, u64::from(a));
    }
}
