// Op 1, makeregion, and the stores that every step which fills words is made of.

ghost use Rattle.std.specs.Prelude.{◌≡◌, ◌*◌, ◌+◌};
ghost use Rattle.words.specs.Answers.{told};
ghost use Rattle.store.specs.Memory.{memory_in, KeptFilling, next_at};
ghost use Rattle.store.specs.Make.{page_started, next_stamp, region_noted, stamp_given, make_answer, make_tables, make_memory};

use crate::memory::{put, read};
use crate::{Filling, registers};
use words::{Link, Refusal, Register};

// The next stamp that no region is given.
const LAST_STAMP: u32 = u32::MAX;

#[tactic(auto, unfolding(crate::specs::Make::next_stamp))]
pub fn next_stamp(tables: &[u64]) -> u32
    ensures { result ≡ next_stamp tables.now }
{
    (read(tables, 0, 0) % 4294967296) as u32
}

// The region goes into register d, and its stamp is given.
#[tactic(auto, unfolding(crate::specs::Make::region_noted))]
fn note_region(tables: &mut [u64], n: u8, d: u8, stamp: u32)
    ensures { tables.new ≡ region_noted n d stamp tables.old }
{
    registers::set_register(tables, n, d, u64::from(Register::Region(stamp)));
    put(tables, 0, stamp as u64 + 1);
}

impl<'a> Filling<'a> {
    // A page becomes the newest of the region of this stamp.
    #[tactic(auto, unfolding(crate::specs::Make::page_started, words::specs::Words::heap_word))]
    pub fn start_page(&mut self, n: u8, p: u32, stamp: u32)
        ensures memory { memory_in self.new ≡ page_started n p stamp (memory_in self.old) }
        ensures kept { KeptFilling self.old self.new }
    {
        self.fill_at(n, p as usize * 16, u64::from(Link { stamp, next: None }));
    }

    // The link of page p gets this word: it gains a next page. Its marks stay.
    #[tactic(auto, unfolding(crate::specs::Memory::next_at))]
    pub fn put_link(&mut self, p: u32, w: u64)
        ensures memory { memory_in self.new ≡ next_at (p * 16) w (memory_in self.old) }
        ensures kept { KeptFilling self.old self.new }
    {
        put(self.words, p as usize * 16, w);
    }

    // The answer is the stamp.
    #[tactic(auto, unfolding(crate::specs::Make::on_make, crate::specs::Make::make_answer, crate::specs::Make::make_tables, crate::specs::Make::make_memory))]
    pub fn make_region(&mut self, tables: &mut [u64], slots: u16, d: u8) -> Result<u32, Refusal>
        ensures answer { told (λ s. stamp_given s) result ≡ make_answer self.old.pages.first self.old.pages.count slots tables.old self.old.words.now }
        ensures tables { tables.new ≡ make_tables self.old.pages.first self.old.pages.count slots d tables.old self.old.words.now }
        ensures memory { memory_in self.new ≡ make_memory self.old.pages.first self.old.pages.count slots tables.old (memory_in self.old) }
        ensures kept { KeptFilling self.old self.new }
    {
        let stamp = next_stamp(tables);
        if stamp == LAST_STAMP {
            return Err(Refusal::NoStamp);
        }
        if slots as usize <= self.view().slot_count() {
            return Err(Refusal::NoSlot);
        }
        let p = self.view().lowest_free().ok_or(Refusal::NoPage)?;
        let n = registers::copy_number(tables);
        self.start_page(n, p as u32, stamp);
        note_region(tables, n, d, stamp);
        Ok(stamp)
    }
}
