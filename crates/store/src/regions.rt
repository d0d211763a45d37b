// The region in a register: kill takes it out of the present copy, build fills its newest page.

ghost use Rattle.std.specs.Prelude.{◌≡◌};
ghost use Rattle.store.specs.Regions.{home_at};

use crate::registers::held;
use crate::{NewestPage, View};
use words::Register;

impl<'a> View<'a> {
    // The region in register a, if it is in the present copy.
    #[tactic(auto, unfolding(crate::specs::Regions::home_at))]
    pub fn home(&self, tables: &[u64], a: u8) -> Option<NewestPage>
        ensures { result ≡ home_at self.now.pages.first self.now.pages.count self.now.words.now tables.now self.now.turned.now a }
    {
        let Some(Register::Region(stamp)) = held(tables, a) else {
            return None;
        };
        let p = self.live_page(stamp)?;
        Some(NewestPage {
            page: self.pages.narrow(p),
            stamp,
        })
    }
}
