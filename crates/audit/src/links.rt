// The pages: a free page is empty with its marks; the pages of a stamp are one chain from its first page to its newest.

ghost use Rattle.std.specs.Prelude.{◌≡◌};
ghost use Rattle.laws.specs.Loops.{seek};
ghost use Rattle.audit.specs.Session.{session_of};
ghost use Rattle.audit.specs.Links.{
  is_at,
  next_page,
  names_next,
  ends_in,
  gone_ok,
  span_ok,
  region_ok,
  marks_ok,
  chain_ok,
  follows_ok,
  last_ok,
  joined_ok,
  link_ok,
  home_of,
  linked_ok,
  held_ok,
  page_ok,
};

use crate::{Fill, Home, Session};
use words::{Link, Word, heap};

fn gone_ok(present: u8, born: u8, turned: u8) -> bool
    ensures { result ≡ gone_ok present born turned }
{
    turned == 0 || born <= turned && turned < present
}

impl<'a> Session<'a> {
    // The page that the link of page p names as the next, if it names one.
    fn next_page(&self, p: usize) -> Option<u16>
        ensures { result ≡ next_page self.now.view.words.now p }
    {
        heap::next(self.view.link(p))
    }

    fn names_next(&self, q: u16, p: usize) -> bool
        ensures { result ≡ names_next self.now.view.words.now q p }
    {
        self.next_page(p) == Some(q)
    }

    // The first page whose next page is q.
    fn page_before(&self, q: u16) -> Option<usize>
        ensures { result ≡ seek (names_next self.now.view.words.now q) self.now.view.pages.count self.now.view.pages.first }
    {
        self.view.pages.numbers().find(|p| self.names_next(q, *p))
    }

    // Do the links from page p on lead to a last page, over fewer than k links?
    fn ends_in(&self, k: u32, p: usize) -> bool
        ensures { result ≡ ends_in self.now.view.words.now k p }
    {
        let mut at = p;
        for _turn in 0..k {
            let Some(next) = self.next_page(at) else {
                return true;
            };
            at = next as usize;
        }
        false
    }

    fn span_ok(&self, p: usize) -> bool
        ensures { result ≡ span_ok (session_of self.now) p }
    {
        let born = self.view.link_born(p);
        born != 0 && born <= self.present && gone_ok(self.present, born, self.view.link_turned(p))
    }

    fn region_ok(&self, stamp: u32, p: usize) -> bool
        ensures { result ≡ region_ok (session_of self.now) stamp p }
    {
        self.stamp_in(stamp) && self.span_ok(p)
    }

    fn marks_ok(&self, p: usize, q: u16) -> bool
        ensures { result ≡ marks_ok (session_of self.now) p q }
    {
        let q = q as usize;
        let joins = self.view.link_born(q);
        self.view.link_turned(q) == self.view.link_turned(p)
            && self.view.link_born(p) <= joins
            && self.view.born(q * 16 + 1) == joins
    }

    #[tactic(auto, unfolding(crate::specs::Links::chain_ok))]
    fn chain_ok(&self, p: usize, q: u16) -> bool
        ensures { result ≡ chain_ok (session_of self.now) p q }
    {
        self.page_before(q) == Some(p) && self.ends_in(self.view.pages.count as u32 + 1, p)
    }

    #[tactic(auto, unfolding(crate::specs::Links::follows_ok))]
    fn follows_ok(&self, stamp: u32, p: usize, q: u16) -> bool
        ensures { result ≡ follows_ok (session_of self.now) stamp p q }
    {
        self.page_in(q)
            && self.view.of_stamp(q as usize, stamp)
            && self.marks_ok(p, q)
            && self.chain_ok(p, q)
    }

    #[tactic(auto, unfolding(crate::specs::Links::last_ok))]
    fn last_ok(&self, stamp: u32, p: usize) -> bool
        ensures { result ≡ last_ok (session_of self.now) stamp p }
    {
        self.region_ok(stamp, p) && self.view.newest_page(stamp) == Some(p)
    }

    #[tactic(auto, unfolding(crate::specs::Links::joined_ok))]
    fn joined_ok(&self, stamp: u32, p: usize, q: u16) -> bool
        ensures { result ≡ joined_ok (session_of self.now) stamp p q }
    {
        self.region_ok(stamp, p) && self.follows_ok(stamp, p, q)
    }

    #[tactic(auto, unfolding(crate::specs::Links::link_ok))]
    fn link_ok(&self, l: Link, p: usize) -> bool
        ensures { result ≡ link_ok (session_of self.now) l p }
    {
        match l.next {
            Some(next) => self.joined_ok(l.stamp, p, next),
            None => self.last_ok(l.stamp, p),
        }
    }

    #[tactic(auto, unfolding(crate::specs::Links::home_of))]
    fn home_of(&self, l: Link, p: usize) -> Home
        ensures { result ≡ home_of (session_of self.now) l p }
    {
        let newest = self.newest_copy(p);
        Home {
            stamp: l.stamp,
            newest,
            full: match l.next {
                Some(next) => self.view.link_born(next as usize),
                None => newest,
            },
        }
    }

    #[tactic(auto, unfolding(crate::specs::Links::linked_ok))]
    fn linked_ok(&self, l: Link, p: u32) -> bool
        ensures { result ≡ linked_ok (session_of self.now) l p }
    {
        let page = p as usize;
        let fill = Fill {
            more: 0,
            last: self.view.link_born(page),
        };
        self.link_ok(l, page) && self.cells_ok(self.home_of(l, page), p, 1, fill)
    }

    #[tactic(auto, unfolding(crate::specs::Links::held_ok))]
    fn held_ok(&self, x: Word, p: u32) -> bool
        ensures { result ≡ held_ok (session_of self.now) x p }
    {
        match x {
            Word::Linked(l) => self.linked_ok(l, p),
            Word::Empty | Word::Filled(_) | Word::Broken => false,
        }
    }

    #[tactic(auto, unfolding(crate::specs::Links::page_ok))]
    pub fn page_ok(&self, p: u32) -> bool
        ensures { result ≡ page_ok (session_of self.now) p }
    {
        let w = self.view.link(p as usize);
        if w == 0 {
            self.all_blank(16, p, 0)
        } else {
            self.held_ok(Word::from(w), p)
        }
    }
}
