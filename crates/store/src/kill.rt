// Kill: a region leaves the present copy. What the present copy brought to it goes, and what saved copies have stays held.

ghost use Rattle.std.specs.Prelude.{◌≡◌};
ghost use Rattle.words.specs.Answers.{told_done};
ghost use Rattle.store.specs.Copies.{kill_answer, kill_memory};
ghost use Rattle.store.specs.Memory.{memory_of, Kept};

use crate::registers::copy_number;
use crate::{Heap, Which};
use words::Refusal;

impl<'a> Heap<'a> {
    // The region in register a.
    #[tactic(auto, unfolding(crate::specs::Copies::kill_answer, crate::specs::Copies::kill_memory))]
    pub fn kill_region(&mut self, tables: &[u64], a: u8) -> Result<(), Refusal>
        ensures answer { told_done result ≡ kill_answer self.old.pages.first self.old.pages.count tables.now a (memory_of self.old) }
        ensures memory { memory_of self.new ≡ kill_memory self.old.pages.first self.old.pages.count tables.now a (memory_of self.old) }
        ensures kept { Kept self.old self.new }
    {
        let home = self.view().home(tables, a).ok_or(Refusal::NoRegion)?;
        let n = copy_number(tables);
        self.undo(Which::Stamped(home.stamp), n, n);
        Ok(())
    }
}
