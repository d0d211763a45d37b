// The four calls: open, run, page, state. Each answers every input; one that is refused writes nothing.

ghost use Rattle.std.specs.Prelude.{◌≡◌};
ghost use Rattle.machine.specs.Calls.{openable, page_part};
ghost use Rattle.audit.specs.Audit.{lent};
ghost use Rattle.kuniqjaak.specs.Calls.{number_of, status_told, open_status, open_leaves, run_status, run_leaves, run_answers, state_told};

use crate::runs::run_steps;
use crate::{CallRefusal, Limits};
use audit::sound;
use machine::State;
use store::make::next_stamp;
use store::memory::put;
use store::registers::copy_number;
use store::{PageRange, View};

// The most steps that a run takes.
const STEPS: usize = 4096;

const SLOTS: u16 = 64;

const CHOICES: u8 = 32;

// The number of a refusal.
impl From<CallRefusal> for u8 {
    ghost from_gives = { λ e n. n ≡ number_of e };

    fn from(e: CallRefusal) -> u8 {
        match e {
            CallRefusal::NoSession => 16,
            CallRefusal::TooMany => 17,
            CallRefusal::NotOpenable => 18,
        }
    }
}

// Is this a heap of 1 to 256 whole pages, are these tables of their fixed lengths, is this a stamp?
#[tactic(auto, unfolding(machine::specs::Calls::openable))]
fn openable(heap: &[u64], tables: &[u64], born: &[u8], turned: &[u8], stamp: u32) -> bool
    ensures { result ≡ openable (lent heap.now tables.now born.now turned.now) stamp }
{
    heap.len() % 16 == 0
        && 1 <= heap.len() / 16
        && heap.len() / 16 <= 256
        && tables.len() == 1058
        && born.len() == 4096
        && turned.len() == 4096
        && 1 <= stamp
}

// No region, no saved copy, empty registers, and this next stamp. The present copy is number 1.
#[tactic(auto, unfolding(crate::specs::Calls::open_status, crate::specs::Calls::open_leaves, crate::specs::Calls::blank))]
pub fn open(
    heap: &mut [u64],
    tables: &mut [u64],
    born: &mut [u8],
    turned: &mut [u8],
    stamp: u32,
) -> Result<(), CallRefusal>
    ensures status { status_told result ≡ open_status (lent heap.old tables.old born.old turned.old) stamp }
    ensures lent { lent heap.new tables.new born.new turned.new ≡ open_leaves (lent heap.old tables.old born.old turned.old) stamp }
{
    if !openable(heap, tables, born, turned, stamp) {
        return Err(CallRefusal::NotOpenable);
    }
    heap.fill(0);
    tables.fill(0);
    born.fill(0);
    turned.fill(0);
    put(tables, 0, stamp as u64);
    put(tables, 1, 1);
    Ok(())
}

// A page's sixteen words as a part of the lent heap, and the empty part if the heap ends before.
#[tactic(auto, unfolding(machine::specs::Calls::page_part))]
pub fn page(heap: &[u64], page: usize) -> &[u64]
    ensures { result.now ≡ page_part heap.now page }
{
    if page < heap.len() / 16 {
        &heap[page * 16..page * 16 + 16]
    } else {
        &[]
    }
}

// Free pages, saved copies, next stamp.
#[tactic(auto, unfolding(crate::specs::Calls::state_told, crate::specs::Calls::state_in))]
pub fn state(heap: &[u64], tables: &[u64], born: &[u8], turned: &[u8]) -> Result<State, CallRefusal>
    ensures { result ≡ state_told (lent heap.now tables.now born.now turned.now) }
{
    if !sound(heap, tables, born, turned) {
        return Err(CallRefusal::NoSession);
    }
    let pages = PageRange {
        first: 0,
        count: (heap.len() / 16) as u16,
    };
    let view = View {
        words: heap,
        born,
        turned,
        pages,
    };
    Ok(State {
        free: view.free_count() as u16,
        choices: copy_number(tables).saturating_sub(1),
        next: next_stamp(tables),
    })
}

// The steps of a run over a sound session.
#[tactic(auto, unfolding(crate::specs::Calls::on_run, crate::specs::Calls::run_status, crate::specs::Calls::run_leaves, crate::specs::Calls::run_answers))]
pub fn run(
    heap: &mut [u64],
    tables: &mut [u64],
    born: &mut [u8],
    turned: &mut [u8],
    steps: &[u64],
    answers: &mut [u64],
) -> Result<(), CallRefusal>
    ensures status { status_told result ≡ run_status (lent heap.old tables.old born.old turned.old) steps.now answers.old }
    ensures lent { lent heap.new tables.new born.new turned.new ≡ run_leaves (lent heap.old tables.old born.old turned.old) steps.now answers.old }
    ensures answers { answers.new ≡ run_answers (lent heap.old tables.old born.old turned.old) steps.now answers.old }
{
    if STEPS < steps.len() || answers.len() < steps.len() {
        return Err(CallRefusal::TooMany);
    }
    if !sound(heap, tables, born, turned) {
        return Err(CallRefusal::NoSession);
    }
    let pages = PageRange {
        first: 0,
        count: (heap.len() / 16) as u16,
    };
    let limits = Limits {
        pages,
        slots: SLOTS,
        choices: CHOICES,
    };
    run_steps(heap, tables, born, turned, limits, steps, answers);
    Ok(())
}
