// What the link words tell: free pages, slots, a region's newest page and its fill.

ghost use Rattle.std.specs.Prelude.{◌≡◌, min, ◌*◌, ◌+◌, ◌<◌, ◌≤◌, IfSome, eqb, get_or};
ghost use Rattle.laws.specs.Loops.{seek};
ghost use Rattle.store.specs.Pages.{has_link, lowest_free, newest_page, live_page, fill, free_count, is_last, slot_count};

use crate::{PageRange, View};
use std::ops::Range;
use words::Link;
use words::heap::has_next;

impl PageRange {
    // The numbers of the pages.
    pub fn numbers(&self) -> Range<usize>
        ensures start { result.start ≡ self.now.first }
        ensures end { result.end ≡ self.now.first + self.now.count }
    {
        let first = self.first as usize;
        first..first + self.count as usize
    }

    // The number of a page in 32 bits: that of each of the pages is below their end.
    pub fn narrow(&self, p: usize) -> u32
        ensures { result ≡ min p (self.now.first + self.now.count) }
    {
        p.min(self.first as usize + self.count as usize) as u32
    }
}

// Is this the link of a region's newest page: a link without a next page?
pub fn is_last(w: u64) -> bool
    ensures { result ≡ is_last w }
{
    w != 0 && !has_next(w)
}

impl<'a> View<'a> {
    // The first page with this link word.
    #[tactic(auto, using(laws::proofs::Scan::found_below))]
    fn first_with(&self, w: u64) -> Option<usize>
        ensures found { result ≡ seek (has_link self.now.words.now w) self.now.pages.count self.now.pages.first }
        ensures below { IfSome result (λ p. p < self.now.pages.first + self.now.pages.count) }
    {
        self.pages.numbers().find(|p| self.link(*p) == w)
    }

    #[tactic(auto, unfolding(crate::specs::Pages::lowest_free))]
    pub fn lowest_free(&self) -> Option<usize>
        ensures found { result ≡ lowest_free self.now.pages.first self.now.pages.count self.now.words.now }
        ensures below { IfSome result (λ p. p < self.now.pages.first + self.now.pages.count) }
    {
        self.first_with(0)
    }

    // The newest page of the region of a stamp: the one page whose link has this stamp and no next page.
    #[tactic(auto, unfolding(crate::specs::Pages::newest_page, words::specs::Words::heap_word))]
    pub fn newest_page(&self, stamp: u32) -> Option<usize>
        ensures found { result ≡ newest_page self.now.pages.first self.now.pages.count self.now.words.now stamp }
        ensures below { IfSome result (λ p. p < self.now.pages.first + self.now.pages.count) }
    {
        self.first_with(u64::from(Link { stamp, next: None }))
    }

    // The same, if the present copy has the region.
    #[tactic(auto, unfolding(crate::specs::Pages::live_page))]
    pub fn live_page(&self, stamp: u32) -> Option<usize>
        ensures found { result ≡ live_page self.now.pages.first self.now.pages.count self.now.words.now self.now.turned.now stamp }
        ensures below { IfSome result (λ p. p < self.now.pages.first + self.now.pages.count) }
    {
        let p = self.newest_page(stamp)?;
        if self.link_turned(p) == 0 {
            Some(p)
        } else {
            None
        }
    }

    // Cell i of page p, from 0 on. A page past the end has none, and for it p * 16 might not fit a usize.
    #[tactic(auto, using(crate::proofs::Links::no_cell))]
    fn cell(&self, p: usize, i: u8) -> u64
        ensures { result ≡ get_or self.now.words.now (p * 16 + 1 + i) 0 }
    {
        if p <= self.words.len() / 16 {
            self.word(p * 16 + 1 + i as usize)
        } else {
            0
        }
    }

    // The first of the first `count` cells of page p that is empty.
    #[tactic(auto, using(laws::proofs::Scan::found_below))]
    fn first_empty(&self, p: usize, count: u8) -> Option<u8>
        ensures found { result ≡ seek (λ i. eqb (get_or self.now.words.now (p * 16 + 1 + i) 0) 0) count 0 }
        ensures below { IfSome result (λ i. i < count) }
    {
        (0..count).find(|i| self.cell(p, *i) == 0)
    }

    // How many words of page p are filled, from word 1 on.
    #[tactic(auto, using(crate::proofs::Links::no_fill), unfolding(crate::specs::Pages::fill))]
    pub fn fill(&self, p: usize) -> usize
        ensures fill { result ≡ fill self.now.words.now p }
        ensures most { result ≤ 15 }
    {
        if self.words.len() / 16 < p {
            return 0;
        }
        self.first_empty(p, 15).unwrap_or(15) as usize
    }

    #[tactic(auto, unfolding(crate::specs::Pages::free_count))]
    pub fn free_count(&self) -> usize
        ensures count { result ≡ free_count self.now.pages.first self.now.pages.count self.now.words.now }
        ensures most { result ≤ self.now.pages.count }
    {
        self.pages.numbers().filter(|p| self.link(*p) == 0).count()
    }

    // The slots taken: each region has one newest page.
    #[tactic(auto, unfolding(crate::specs::Pages::slot_count))]
    pub fn slot_count(&self) -> usize
        ensures { result ≡ slot_count self.now.pages.first self.now.pages.count self.now.words.now }
    {
        self.pages
            .numbers()
            .filter(|p| is_last(self.link(*p)))
            .count()
    }
}
