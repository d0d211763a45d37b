// Choice points: a copy is saved, the newest saved copy is dropped, or it becomes the present one.

ghost use Rattle.std.specs.Prelude.{◌≡◌};
ghost use Rattle.words.specs.Answers.{told_done};
ghost use Rattle.store.specs.Copies.{push_answer, push_tables, drop_answer, row_dropped, backtrack_memory, backtrack_tables, cut_memory, cut_tables};
ghost use Rattle.store.specs.Memory.{memory_of, Kept};

use crate::memory::put;
use crate::registers::{clear_row, copy_number, copy_row};
use crate::{Heap, Which};
use words::Refusal;

// The registers alone are saved: what the present copy has, the marks tell apart from what later copies bring. A mark has 8 bits, so there is no copy 256.
#[tactic(auto, unfolding(crate::specs::Copies::push_answer, crate::specs::Copies::push_tables))]
pub fn push_choice(tables: &mut [u64], choices: u8) -> Result<(), Refusal>
    ensures answer { told_done result ≡ push_answer choices tables.old }
    ensures tables { tables.new ≡ push_tables choices tables.old }
{
    let n = copy_number(tables);
    if choices < n || n == u8::MAX {
        return Err(Refusal::TooManyCopies);
    }
    copy_row(tables, n, n + 1);
    put(tables, 1, (n + 1) as u64);
    Ok(())
}

#[tactic(auto, unfolding(crate::specs::Copies::row_dropped))]
fn drop_row(tables: &mut [u64], n: u8, last: u8)
    ensures { tables.new ≡ row_dropped n last tables.old }
{
    clear_row(tables, n);
    put(tables, 1, last as u64);
}

impl<'a> Heap<'a> {
    #[tactic(auto, unfolding(crate::specs::Copies::drop_answer, crate::specs::Copies::backtrack_memory, crate::specs::Copies::backtrack_tables))]
    pub fn backtrack(&mut self, tables: &mut [u64]) -> Result<(), Refusal>
        ensures answer { told_done result ≡ drop_answer tables.old }
        ensures memory { memory_of self.new ≡ backtrack_memory self.old.pages.first self.old.pages.count tables.old (memory_of self.old) }
        ensures tables { tables.new ≡ backtrack_tables tables.old }
        ensures kept { Kept self.old self.new }
    {
        let n = copy_number(tables);
        if n < 2 {
            return Err(Refusal::NoCopy);
        }
        self.undo(Which::Marked(0), n, n - 1);
        drop_row(tables, n, n - 1);
        Ok(())
    }

    // The present copy takes the number of the one that is cut, and its registers that row.
    #[tactic(auto, unfolding(crate::specs::Copies::drop_answer, crate::specs::Copies::cut_memory, crate::specs::Copies::cut_tables))]
    pub fn cut(&mut self, tables: &mut [u64]) -> Result<(), Refusal>
        ensures answer { told_done result ≡ drop_answer tables.old }
        ensures memory { memory_of self.new ≡ cut_memory self.old.pages.first self.old.pages.count tables.old (memory_of self.old) }
        ensures tables { tables.new ≡ cut_tables tables.old }
        ensures kept { Kept self.old self.new }
    {
        let n = copy_number(tables);
        if n < 2 {
            return Err(Refusal::NoCopy);
        }
        let last = n - 1;
        self.undo(Which::Marked(last), last, last);
        copy_row(tables, n, last);
        drop_row(tables, n, last);
        Ok(())
    }
}
