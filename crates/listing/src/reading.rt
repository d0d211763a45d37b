// A step file: words of 8 bytes, most significant first, and the first of them.

ghost use Rattle.std.specs.Prelude.{◌≡◌};
ghost use Rattle.listing.specs.File.{word_at, words_read};
ghost use Rattle.machine.specs.Program.{pages_of, first_stamp, first_refused};

use std::array;
use store::memory::{put, read};
use words::parts::bits;

// Word i of the file. For a word past the end i * 8 might not fit a usize.
#[tactic(auto, using(crate::proofs::File::no_word), unfolding(crate::specs::File::word_at, crate::specs::File::four_at))]
pub fn word_at(file: &[u8], i: usize) -> u64
    ensures { result ≡ word_at file.now i }
{
    if file.len() / 8 < i {
        return 0;
    }
    let a = i * 8;
    u64::from_be_bytes(array::from_fn(|k| read(file, a + k, 0)))
}

// The first `count` words of the file.
#[tactic(auto, using(crate::proofs::File::words_none, crate::proofs::File::words_one_more))]
pub fn read_words(file: &[u8], words: &mut [u64], count: usize)
    ensures { words.new ≡ words_read file.now count words.old }
{
    for i in 0..count {
        put(words, i, word_at(file, i));
    }
}

pub fn pages_of(w: u64) -> u16
    ensures { result ≡ pages_of w }
{
    bits(w, 48, 16) as u16
}

pub fn first_stamp(w: u64) -> u32
    ensures { result ≡ first_stamp w }
{
    bits(w, 16, 32) as u32
}

// Is a file with this first word refused: are any of its last 16 bits set, or does the opening refuse it?
#[tactic(auto, unfolding(machine::specs::Program::first_refused))]
pub fn first_refused(w: u64) -> bool
    ensures { result ≡ first_refused w }
{
    0 < bits(w, 0, 16) || pages_of(w) == 0 || 256 < pages_of(w) || first_stamp(w) == 0
}
