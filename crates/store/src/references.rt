// Is a reference live: is its region in the present copy? The link word of the page that it names tells.

ghost use Rattle.std.specs.Prelude.{◌≡◌};
ghost use Rattle.store.specs.Pages.{of_stamp, page_of, live_ref};

use crate::View;
use words::Ref;
use words::heap::{LINK_TAG, STAMP_AT};

impl<'a> View<'a> {
    // Is page p held by the region of this stamp? The tag and the stamp of its link are compared as one number.
    pub fn of_stamp(&self, p: usize, stamp: u32) -> bool
        ensures { result ≡ of_stamp self.now.words.now stamp p }
    {
        self.link(p) / STAMP_AT == LINK_TAG / STAMP_AT + stamp as u64
    }

    // Is it, and is the region in the present copy?
    #[tactic(auto, unfolding(crate::specs::Pages::page_of))]
    pub fn page_of(&self, p: usize, stamp: u32) -> bool
        ensures { result ≡ page_of self.now.words.now self.now.turned.now p stamp }
    {
        self.of_stamp(p, stamp) && self.link_turned(p) == 0
    }

    #[tactic(auto, unfolding(crate::specs::Pages::live_ref))]
    pub fn live(&self, r: Ref) -> bool
        ensures { result ≡ live_ref self.now.words.now self.now.turned.now r }
    {
        self.page_of(r.address as usize / 16, r.stamp)
    }
}
