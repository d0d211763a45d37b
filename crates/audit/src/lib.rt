// Is the lent memory a sound session? One test over everything lent: the lengths, the head of the tables, the pages, the rows, the marks past the heap.

#![tactic(auto)]

ghost use Rattle.std.specs.Prelude.{◌≡◌, ◌≤◌, true, length};
ghost use Rattle.laws.specs.Loops.{all_of};
ghost use Rattle.audit.specs.Session.{session_of};
ghost use Rattle.audit.specs.Links.{page_ok};
ghost use Rattle.audit.specs.Audit.{lent, heap_length_ok, lengths_ok, pages_ok, past_ok, memory_ok, machine_ok, sound_test};

use crate::rows::{head_ok, zero_to};
use store::memory::read;
use store::registers::copy_number;
use store::{PageRange, View};

// What is looked at: the heap with its marks, the tables, and what the tables' head says: the number of the present copy and the next stamp.
#[derive(Clone, Copy)]
pub struct Session<'a> {
    pub view: View<'a>,
    pub tables: &'a [u64],
    pub present: u8,
    pub next: u64,
}

// What is known of a held page when its cells are looked at: the stamp of its region, the newest copy that has the region, and the newest copy that may
// have filled a word of the page.
#[derive(Clone, Copy, Debug, PartialEq, Eq)]
pub struct Home {
    pub stamp: u32,
    pub newest: u8,
    pub full: u8,
}

// A word of a held page: its address, and its marks.
#[derive(Clone, Copy, Debug, PartialEq, Eq)]
pub struct Place {
    pub address: usize,
    pub born: u8,
    pub turned: u8,
}

// What was seen of the words before a place: how many arguments are still to come, and the copy in which the last word was filled.
#[derive(Clone, Copy, Debug, PartialEq, Eq)]
pub struct Fill {
    pub more: u8,
    pub last: u8,
}

// The copies that a reference is looked at in.
#[derive(Clone, Copy, Debug, PartialEq, Eq)]
pub struct CopyRange {
    pub since: u8,
    pub upto: u8,
}

pub mod cells;
pub mod links;
pub mod live;
pub mod rows;

// The slots and the choice points of a machine.
const SLOTS: u16 = 64;

const CHOICES: u8 = 32;

// The words that an address can name: each has two marks, and a heap has at most so many.
const WORDS: usize = 4096;

// The head's two words, and a row of 32 for each copy: one more than there are choice points.
const TABLE_WORDS: usize = 1058;

fn heap_length_ok(k: usize) -> bool
    ensures { result ≡ heap_length_ok k }
{
    k % 16 == 0 && (16..=WORDS).contains(&k)
}

// The four slices stand apart here: the page range of a view follows from the heap's length only when that has passed.
#[tactic(auto, unfolding(crate::specs::Audit::lengths_ok))]
fn lengths_ok(heap: &[u64], tables: &[u64], born: &[u8], turned: &[u8]) -> bool
    ensures test { result ≡ lengths_ok (lent heap.now tables.now born.now turned.now) }
    ensures within { result ≡ true → length heap.now ≤ 4096 }
{
    heap_length_ok(heap.len())
        && tables.len() == TABLE_WORDS
        && born.len() == WORDS
        && turned.len() == WORDS
}

impl<'a> Session<'a> {
    // The pages by numbers of 32 bits, which times 16 fit a usize.
    fn all_pages_ok(&self) -> bool
        ensures { result ≡ all_of (page_ok (session_of self.now)) self.now.view.pages.count self.now.view.pages.first }
    {
        let first = self.view.pages.first as u32;
        (first..first + self.view.pages.count as u32).all(|p| self.page_ok(p))
    }

    #[tactic(auto, unfolding(crate::specs::Audit::pages_ok))]
    fn pages_ok(&self, slots: u16) -> bool
        ensures { result ≡ pages_ok (session_of self.now) slots }
    {
        self.all_pages_ok() && self.view.slot_count() <= slots as usize
    }

    #[tactic(auto, unfolding(crate::specs::Audit::past_ok))]
    fn past_ok(&self) -> bool
        ensures { result ≡ past_ok (session_of self.now) }
    {
        let end = self.view.words.len();
        zero_to(self.view.born, 0, end, WORDS) && zero_to(self.view.turned, 0, end, WORDS)
    }

    #[tactic(auto, unfolding(crate::specs::Audit::memory_ok))]
    fn memory_ok(&self, slots: u16, choices: u8) -> bool
        ensures { result ≡ memory_ok (session_of self.now) slots choices }
    {
        self.pages_ok(slots) && self.rows_ok(choices) && self.past_ok()
    }
}

#[tactic(auto, unfolding(crate::specs::Audit::machine_ok))]
fn machine_ok(view: &View<'_>, tables: &[u64], slots: u16, choices: u8) -> bool
    ensures { result ≡ machine_ok view.now.pages.first view.now.pages.count slots choices (lent view.now.words.now tables.now view.now.born.now view.now.turned.now) }
{
    let session = Session {
        view: *view,
        tables,
        present: copy_number(tables),
        next: read(tables, 0, 0),
    };
    head_ok(choices, tables) && session.memory_ok(slots, choices)
}

#[tactic(auto, unfolding(crate::specs::Audit::sound_test))]
pub fn sound(heap: &[u64], tables: &[u64], born: &[u8], turned: &[u8]) -> bool
    ensures test { result ≡ sound_test (lent heap.now tables.now born.now turned.now) }
    ensures within { result ≡ true → length heap.now ≤ 4096 }
{
    if !lengths_ok(heap, tables, born, turned) {
        return false;
    }
    let pages = PageRange {
        first: 0,
        count: (heap.len() / 16) as u16,
    };
    let view = View {
        words: heap,
        born,
        turned,
        pages,
    };
    machine_ok(&view, tables, SLOTS, CHOICES)
}
