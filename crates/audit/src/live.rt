// In which copies a region is live, and what a reference names in them, read off the marks.

ghost use Rattle.std.specs.Prelude.{◌≡◌};
ghost use Rattle.audit.specs.Session.{session_of};
ghost use Rattle.audit.specs.Live.{
  stamp_in,
  page_in,
  address_in,
  ref_in,
  newest_copy,
  since_at,
  seen_at,
  seen_before,
  has_tag_up_to,
  named_since,
  absent_before,
  ref_ok,
  younger_than,
  order_ok,
};

use crate::{CopyRange, Session};
use words::Ref;
use words::heap::tag;

// No copy has a number as large as this. It stands for no copy as a bound does, where an Option would be taken apart before each comparison.
const NEVER: u16 = 256;

// A word of tag 1 or 2 is a variable, one of tag 1 to 4 starts a term.
const LAST_OF_VARIABLES: u8 = 2;

const LAST_OF_STARTS: u8 = 4;

#[tactic(auto, unfolding(crate::specs::Live::younger_than))]
fn younger_than(stamp: u32, a: usize, r: Ref) -> bool
    ensures { result ≡ younger_than stamp a r }
{
    (r.stamp, r.address as usize) < (stamp, a)
}

impl<'a> Session<'a> {
    pub fn stamp_in(&self, stamp: u32) -> bool
        ensures { result ≡ stamp_in self.now.next stamp }
    {
        0 < stamp && (stamp as u64) < self.next
    }

    pub fn page_in(&self, p: u16) -> bool
        ensures { result ≡ page_in self.now.view.pages.first self.now.view.pages.count p }
    {
        self.view.pages.numbers().contains(&(p as usize))
    }

    fn address_in(&self, a: u16) -> bool
        ensures { result ≡ address_in self.now.view.pages.first self.now.view.pages.count a }
    {
        self.page_in(a / 16) && 0 < a % 16
    }

    fn ref_in(&self, r: Ref) -> bool
        ensures { result ≡ ref_in (session_of self.now) r }
    {
        self.stamp_in(r.stamp) && self.address_in(r.address)
    }

    #[tactic(auto, unfolding(crate::specs::Live::newest_copy))]
    pub fn newest_copy(&self, p: usize) -> u8
        ensures { result ≡ newest_copy (session_of self.now) p }
    {
        let m = self.view.link_turned(p);
        if m == 0 { self.present } else { m }
    }

    #[tactic(auto, unfolding(crate::specs::Live::since_at))]
    fn since_at(&self, since: u8, p: usize) -> u8
        ensures { result ≡ since_at (session_of self.now) since p }
    {
        since.max(self.view.link_born(p))
    }

    // Most pages of a scan are not of the stamp: that is asked first, and their marks are not read.
    #[tactic(auto, unfolding(crate::specs::Live::seen_at))]
    fn seen_at(&self, stamp: u32, range: CopyRange, bound: u16, p: usize) -> bool
        ensures { result ≡ seen_at (session_of self.now) stamp range bound p }
    {
        if !self.view.of_stamp(p, stamp) {
            return false;
        }
        let c = self.since_at(range.since, p);
        (c as u16) < bound && c <= range.upto && c <= self.newest_copy(p)
    }

    #[tactic(auto, unfolding(crate::specs::Live::seen_before))]
    fn seen_before(&self, stamp: u32, range: CopyRange, bound: u16) -> bool
        ensures { result ≡ seen_before (session_of self.now) stamp range bound }
    {
        self.view
            .pages
            .numbers()
            .any(|p| self.seen_at(stamp, range, bound, p))
    }

    // Has the word at address a a tag from 1 to `last`?
    fn has_tag_up_to(&self, last: u8, a: usize) -> bool
        ensures { result ≡ has_tag_up_to last self.now.view.words.now a }
    {
        (1..=last).contains(&tag(self.view.word(a)))
    }

    #[tactic(auto, unfolding(crate::specs::Live::named_since))]
    fn named_since(&self, r: Ref) -> u16
        ensures { result ≡ named_since (session_of self.now) r }
    {
        let a = r.address as usize;
        if self.view.of_stamp(a / 16, r.stamp) && self.has_tag_up_to(LAST_OF_STARTS, a) {
            self.view.born(a) as u16
        } else {
            NEVER
        }
    }

    #[tactic(auto, unfolding(crate::specs::Live::absent_before))]
    fn absent_before(&self, stamp: u32, range: CopyRange, bound: u16) -> bool
        ensures { result ≡ absent_before (session_of self.now) stamp range bound }
    {
        bound <= range.since as u16 || !self.seen_before(stamp, range, bound)
    }

    #[tactic(auto, unfolding(crate::specs::Live::ref_ok))]
    pub fn ref_ok(&self, r: Ref, range: CopyRange) -> bool
        ensures { result ≡ ref_ok (session_of self.now) r range }
    {
        self.ref_in(r) && self.absent_before(r.stamp, range, self.named_since(r))
    }

    #[tactic(auto, unfolding(crate::specs::Live::order_ok))]
    pub fn order_ok(&self, stamp: u32, a: usize, r: Ref, range: CopyRange) -> bool
        ensures { result ≡ order_ok (session_of self.now) stamp a r range }
    {
        !self.has_tag_up_to(LAST_OF_VARIABLES, r.address as usize)
            || younger_than(stamp, a, r)
            || self.absent_before(r.stamp, range, NEVER)
    }
}
