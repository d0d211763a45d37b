// The lent memory: cells, pages, regions, copies. Reads and writes are total: a read past the end is 0, a write past the end does nothing.

#![tactic(auto)]

// The pages of a machine: `count` of them, from page `first` on.
#[derive(Clone, Copy, Debug, PartialEq, Eq)]
pub struct PageRange {
    pub first: u16,
    pub count: u16,
}

// The heap that is lent, with the two marks of each word: the copy in which the word was filled, and the copy in which it turned (a variable was bound, a
// region left the present copy). A mark of 0 says that there is none.
#[derive(Drop)]
pub struct Heap<'a> {
    pub words: &'a mut [u64],
    pub born: &'a mut [u8],
    pub turned: &'a mut [u8],
    pub pages: PageRange,
}

// The same for a step that fills words: nothing turns by it, so that the turned marks are lent to read.
#[derive(Drop)]
pub struct Filling<'a> {
    pub words: &'a mut [u64],
    pub born: &'a mut [u8],
    pub turned: &'a [u8],
    pub pages: PageRange,
}

// The same to read.
#[derive(Clone, Copy)]
pub struct View<'a> {
    pub words: &'a [u64],
    pub born: &'a [u8],
    pub turned: &'a [u8],
    pub pages: PageRange,
}

// A region by its stamp, and its newest page, where a term of it goes.
#[derive(Clone, Copy, Debug, PartialEq, Eq)]
pub struct NewestPage {
    pub page: u32,
    pub stamp: u32,
}

// The pages that an undo strikes: those of regions with this mark on their links, or those of this stamp.
#[derive(Clone, Copy, Debug, PartialEq, Eq)]
pub enum Which {
    Marked(u8),
    Stamped(u32),
}

pub mod copies;
pub mod kill;
pub mod make;
pub mod memory;
pub mod pages;
pub mod references;
pub mod regions;
pub mod registers;
mod undo;
