// The calls for C: each slice is a pointer and a length, each answer a number.

#![tactic(auto)]

ghost use Rattle.std.specs.Prelude.{◌≡◌, length};
ghost use Rattle.machine.specs.Calls.{page_part};
ghost use Rattle.audit.specs.Audit.{lent};
ghost use Rattle.kuniqjaak.specs.Calls.{status_told, open_status, open_leaves, run_status, run_leaves, run_answers, state_told};
ghost use Rattle.kuniqjaak_c.specs.Exports.{state_shown, part_start};

use kuniqjaak::{CallRefusal, calls};

// Free pages, saved copies, next stamp.
#[repr(C)]
#[derive(Clone, Copy, Debug, PartialEq, Eq)]
pub struct KuniqjaakState {
    pub free: u16,
    pub choices: u8,
    pub next: u32,
}

// 0, or the number of a refusal.
fn status<T: Copy>(r: Result<T, CallRefusal>) -> u8
    ensures { result ≡ status_told r }
{
    match r {
        Ok(_) => 0,
        Err(e) => u8::from(e),
    }
}

#[unsafe(no_mangle)]
pub extern "C" fn kuniqjaak_open(
    heap: &mut [u64],
    tables: &mut [u64],
    born: &mut [u8],
    turned: &mut [u8],
    stamp: u32,
) -> u8
    ensures status { result ≡ open_status (lent heap.old tables.old born.old turned.old) stamp }
    ensures lent { lent heap.new tables.new born.new turned.new ≡ open_leaves (lent heap.old tables.old born.old turned.old) stamp }
{
    status(calls::open(heap, tables, born, turned, stamp))
}

#[unsafe(no_mangle)]
pub extern "C" fn kuniqjaak_run(
    heap: &mut [u64],
    tables: &mut [u64],
    born: &mut [u8],
    turned: &mut [u8],
    steps: &[u64],
    answers: &mut [u64],
) -> u8
    ensures status { result ≡ run_status (lent heap.old tables.old born.old turned.old) steps.now answers.old }
    ensures lent { lent heap.new tables.new born.new turned.new ≡ run_leaves (lent heap.old tables.old born.old turned.old) steps.now answers.old }
    ensures answers { answers.new ≡ run_answers (lent heap.old tables.old born.old turned.old) steps.now answers.old }
{
    status(calls::run(heap, tables, born, turned, steps, answers))
}

// Where the page's words begin in the heap goes to `start`; the answer is how many there are, 16 or, past the heap's end, 0.
#[unsafe(no_mangle)]
pub extern "C" fn kuniqjaak_page(heap: &[u64], page: usize, start: &mut usize) -> usize
    ensures words { result ≡ length (page_part heap.now page) }
    ensures start { start.new ≡ part_start heap.now page }
{
    *start = if page < heap.len() / 16 { page * 16 } else { 0 };
    calls::page(heap, page).len()
}

// At a refusal the state is zeros.
#[unsafe(no_mangle)]
#[tactic(auto, unfolding(crate::specs::Exports::state_shown))]
pub extern "C" fn kuniqjaak_state(
    heap: &[u64],
    tables: &[u64],
    born: &[u8],
    turned: &[u8],
    state: &mut KuniqjaakState,
) -> u8
    ensures status { result ≡ status_told (state_told (lent heap.now tables.now born.now turned.now)) }
    ensures state { state.new ≡ state_shown (state_told (lent heap.now tables.now born.now turned.now)) }
{
    let told = calls::state(heap, tables, born, turned);
    *state = match told {
        Ok(s) => KuniqjaakState {
            free: s.free,
            choices: s.choices,
            next: s.next,
        },
        Err(_) => KuniqjaakState {
            free: 0,
            choices: 0,
            next: 0,
        },
    };
    status(told)
}
