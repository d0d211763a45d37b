// One word of the heap or the tables, one mark; and the heap with its marks as one value.

ghost use Rattle.std.specs.Prelude.{◌≡◌, ◌*◌, get_or, set};
ghost use Rattle.store.specs.Memory.{memory_of, memory_in, Kept, KeptFilling, fill_at, turn_at};

use crate::{Filling, Heap, View};

// Element a of a list, or `default` past its end.
pub fn read<T: Copy>(list: &[T], a: usize, default: T) -> T
    ensures { result ≡ get_or list.now a default }
{
    list.get(a).copied().unwrap_or(default)
}

// The element of the link of page p. A page past the end has none, and for it p * 16 might not fit a usize.
#[tactic(auto, using(crate::proofs::Links::no_link))]
fn read_link<T: Copy>(list: &[T], p: usize, default: T) -> T
    ensures { result ≡ get_or list.now (p * 16) default }
{
    if p <= list.len() / 16 {
        read(list, p * 16, default)
    } else {
        default
    }
}

// A store past the end does nothing.
#[tactic(auto, using(std::proofs::lemmas::List::set_past))]
pub fn put<T: Copy>(list: &mut [T], a: usize, x: T)
    ensures { list.new ≡ set list.old a x }
{
    if a < list.len() {
        list[a] = x;
    }
}

impl<'a> View<'a> {
    pub fn word(&self, a: usize) -> u64
        ensures { result ≡ get_or self.now.words.now a 0 }
    {
        read(self.words, a, 0)
    }

    pub fn born(&self, a: usize) -> u8
        ensures { result ≡ get_or self.now.born.now a 0 }
    {
        read(self.born, a, 0)
    }

    pub fn turned(&self, a: usize) -> u8
        ensures { result ≡ get_or self.now.turned.now a 0 }
    {
        read(self.turned, a, 0)
    }

    // The link word of page p, and its marks.
    pub fn link(&self, p: usize) -> u64
        ensures { result ≡ get_or self.now.words.now (p * 16) 0 }
    {
        read_link(self.words, p, 0)
    }

    pub fn link_born(&self, p: usize) -> u8
        ensures { result ≡ get_or self.now.born.now (p * 16) 0 }
    {
        read_link(self.born, p, 0)
    }

    pub fn link_turned(&self, p: usize) -> u8
        ensures { result ≡ get_or self.now.turned.now (p * 16) 0 }
    {
        read_link(self.turned, p, 0)
    }
}

impl<'a> Heap<'a> {
    pub fn view(&self) -> View<'_>
        ensures words { result.words.now ≡ self.now.words.now }
        ensures born { result.born.now ≡ self.now.born.now }
        ensures turned { result.turned.now ≡ self.now.turned.now }
        ensures pages { result.pages ≡ self.now.pages }
    {
        View {
            words: &*self.words,
            born: &*self.born,
            turned: &*self.turned,
            pages: self.pages,
        }
    }

    // A variable turns in copy n: it has this word from that copy on.
    #[tactic(auto, unfolding(crate::specs::Memory::turn_at))]
    pub fn turn_at(&mut self, n: u8, a: usize, w: u64)
        ensures memory { memory_of self.new ≡ turn_at n a w (memory_of self.old) }
        ensures kept { Kept self.old self.new }
    {
        put(self.words, a, w);
        put(self.turned, a, n);
    }
}

impl<'a> Filling<'a> {
    pub fn view(&self) -> View<'_>
        ensures words { result.words.now ≡ self.now.words.now }
        ensures born { result.born.now ≡ self.now.born.now }
        ensures turned { result.turned.now ≡ self.now.turned.now }
        ensures pages { result.pages ≡ self.now.pages }
    {
        View {
            words: &*self.words,
            born: &*self.born,
            turned: self.turned,
            pages: self.pages,
        }
    }

    // A word is filled in the present copy, n.
    #[tactic(auto, unfolding(crate::specs::Memory::fill_at))]
    pub fn fill_at(&mut self, n: u8, a: usize, w: u64)
        ensures memory { memory_in self.new ≡ fill_at n a w (memory_in self.old) }
        ensures kept { KeptFilling self.old self.new }
    {
        put(self.words, a, w);
        put(self.born, a, n);
    }
}
