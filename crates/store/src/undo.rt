// The undo that kill, cut and backtrack share: what copy j brought goes from the pages that are struck; `last` is the number of the present copy afterwards.
// It goes in three passes, so that each reads what the ones before it have left: first all cells, which read their page's link; then all link words, which read
// the born mark of the next page; then the links' marks.

ghost use Rattle.std.specs.Prelude.{◌≡◌, ◌*◌, ◌<◌, ◌^◌, get_or, set};
ghost use Rattle.words.specs.Fields.{bits};
ghost use Rattle.store.specs.Memory.{memory, memory_of, Kept};
ghost use Rattle.store.specs.Undo as after;

use crate::memory::put;
use crate::{Heap, View, Which};
use words::heap::{STAMP_AT, TAG_AT, has_next, next_page, stamp};

// A word with its two marks.
#[derive(Clone, Copy, Debug, PartialEq, Eq)]
struct MarkedWord {
    word: u64,
    born: u8,
    turned: u8,
}

// One undo: what is struck, the copy that goes, and the number of the present copy afterwards.
#[derive(Clone, Copy, Debug, PartialEq, Eq)]
struct Undo {
    which: Which,
    j: u8,
    last: u8,
}

impl Undo {
    // Is the page struck that has this link? A free page never is.
    fn strikes(self, link: MarkedWord) -> bool
        ensures { result ≡ after.struck self.which link.word link.turned }
    {
        link.word != 0
            && match self.which {
                Which::Marked(t) => link.turned == t,
                Which::Stamped(s) => stamp(link.word) == s,
            }
    }

    // A cell, given whether its page is struck. On a page that is, a word that was filled in copy j goes, and a variable that was bound in copy j is unbound again.
    fn cell_after(self, struck: bool, x: MarkedWord) -> MarkedWord
        ensures word { result.word ≡ after.cell_word_after struck self.j x.word x.born x.turned }
        ensures born { result.born ≡ after.cell_born_after struck self.j self.last x.born }
        ensures turned { result.turned ≡ after.cell_turn_after struck self.j self.last x.born x.turned }
    {
        if struck && x.born == self.j {
            return MarkedWord {
                word: 0,
                born: 0,
                turned: 0,
            };
        }
        let born = x.born.min(self.last);
        if struck && x.turned == self.j {
            return MarkedWord {
                word: TAG_AT,
                born,
                turned: 0,
            };
        }
        MarkedWord {
            word: x.word,
            born,
            turned: x.turned.min(self.last),
        }
    }

    // A link's word, given the born mark of its next page. A page that joined in copy j goes, and so does the next page of one that stays.
    fn link_word_after(self, link: MarkedWord, next: u8) -> u64
        ensures { result ≡ after.link_word_after (after.struck self.which link.word link.turned) self.j link.word link.born next }
    {
        let struck = self.strikes(link);
        let w = link.word;
        if struck && link.born == self.j {
            0
        } else if struck && has_next(w) && next == self.j {
            w - w % STAMP_AT
        } else {
            w
        }
    }

    fn link_born_after(self, link: MarkedWord) -> u8
        ensures { result ≡ after.link_born_after self.last link.word link.born }
    {
        if link.word == 0 {
            0
        } else {
            link.born.min(self.last)
        }
    }

    // A region whose newest copy is the present one has the mark 0.
    fn link_turn_after(self, link: MarkedWord) -> u8
        ensures { result ≡ after.link_turn_after (after.struck self.which link.word link.turned) self.j self.last link.word link.turned }
    {
        if link.word == 0 {
            return 0;
        }
        let newest = if self.strikes(link) {
            self.j.saturating_sub(1)
        } else {
            link.turned
        };
        if newest == self.last { 0 } else { newest }
    }
}

impl<'a> View<'a> {
    // The word at address a, with its marks.
    fn marked(&self, a: usize) -> MarkedWord
        ensures word { result.word ≡ get_or self.now.words.now a 0 }
        ensures born { result.born ≡ get_or self.now.born.now a 0 }
        ensures turned { result.turned ≡ get_or self.now.turned.now a 0 }
    {
        MarkedWord {
            word: self.word(a),
            born: self.born(a),
            turned: self.turned(a),
        }
    }
}

impl<'a> Heap<'a> {
    fn put_marked(&mut self, a: usize, x: MarkedWord)
        ensures memory { memory_of self.new ≡ memory (set self.old.words.now a x.word) (set self.old.born.now a x.born) (set self.old.turned.now a x.turned) }
        ensures kept { Kept self.old self.new }
    {
        put(self.words, a, x.word);
        put(self.born, a, x.born);
        put(self.turned, a, x.turned);
    }

    // The cell at address a. A link is none.
    #[tactic(auto, unfolding(crate::specs::Undo::cell_after))]
    fn undo_cell(&mut self, undo: Undo, a: usize)
        ensures memory { memory_of self.new ≡ after.cell_after undo.which undo.j undo.last a (memory_of self.old) }
        ensures kept { Kept self.old self.new }
    {
        if a % 16 == 0 {
            return;
        }
        let view = self.view();
        let struck = undo.strikes(view.marked(a / 16 * 16));
        let cell = undo.cell_after(struck, view.marked(a));
        self.put_marked(a, cell);
    }

    // The link word of page p.
    #[tactic(auto, unfolding(crate::specs::Undo::link_after))]
    fn undo_link(&mut self, undo: Undo, p: u32)
        ensures memory { memory_of self.new ≡ after.link_after undo.which undo.j p (memory_of self.old) }
        ensures kept { Kept self.old self.new }
    {
        let a = p as usize * 16;
        let view = self.view();
        let link = view.marked(a);
        let next = view.born(next_page(link.word) as usize * 16);
        put(self.words, a, undo.link_word_after(link, next));
    }

    // The marks of page p's link, by the word that it has now.
    #[tactic(auto, unfolding(crate::specs::Undo::mark_after))]
    fn undo_mark(&mut self, undo: Undo, p: u32)
        ensures memory { memory_of self.new ≡ after.mark_after undo.which undo.j undo.last p (memory_of self.old) }
        ensures kept { Kept self.old self.new }
    {
        let a = p as usize * 16;
        let link = self.view().marked(a);
        put(self.born, a, undo.link_born_after(link));
        put(self.turned, a, undo.link_turn_after(link));
    }

    // ---- the three passes, over the pages from `first` on. Joined by a closure over the heap they would need a contract on it that is longer than the loop

    #[tactic(auto, unfolding(crate::specs::Undo::cells_after))]
    fn undo_cells(&mut self, undo: Undo)
        ensures memory { memory_of self.new ≡ after.cells_after self.old.pages.first self.old.pages.count undo.which undo.j undo.last (memory_of self.old) }
        ensures kept { Kept self.old self.new }
    {
        let start = self.pages.first as usize * 16;
        for a in start..start + self.pages.count as usize * 16 {
            self.undo_cell(undo, a);
        }
    }

    #[tactic(auto, unfolding(crate::specs::Undo::links_after))]
    fn undo_links(&mut self, undo: Undo)
        ensures memory { memory_of self.new ≡ after.links_after self.old.pages.first self.old.pages.count undo.which undo.j (memory_of self.old) }
        ensures kept { Kept self.old self.new }
    {
        let first = self.pages.first as u32;
        for p in first..first + self.pages.count as u32 {
            self.undo_link(undo, p);
        }
    }

    #[tactic(auto, unfolding(crate::specs::Undo::marks_after))]
    fn undo_marks(&mut self, undo: Undo)
        ensures memory { memory_of self.new ≡ after.marks_after self.old.pages.first self.old.pages.count undo.which undo.j undo.last (memory_of self.old) }
        ensures kept { Kept self.old self.new }
    {
        let first = self.pages.first as u32;
        for p in first..first + self.pages.count as u32 {
            self.undo_mark(undo, p);
        }
    }

    #[tactic(auto, unfolding(crate::specs::Undo::undone))]
    pub fn undo(&mut self, which: Which, j: u8, last: u8)
        ensures memory { memory_of self.new ≡ after.undone self.old.pages.first self.old.pages.count which j last (memory_of self.old) }
        ensures kept { Kept self.old self.new }
    {
        let undo = Undo { which, j, last };
        self.undo_cells(undo);
        self.undo_links(undo);
        self.undo_marks(undo);
    }
}
