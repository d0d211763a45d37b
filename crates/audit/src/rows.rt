// The tables: the next stamp, the number of copies, the registers of each copy, and nothing in the rows that are not used.

ghost use Rattle.std.specs.Prelude.{◌≡◌, ◌-◌, get_or};
ghost use Rattle.laws.specs.Loops.{all_of};
ghost use Rattle.audit.specs.Session.{session_of};
ghost use Rattle.audit.specs.Rows.{register_ok, holds_ok, row_word_ok, row_ok, zero_to, stamp_ok, count_ok, head_ok, rows_ok};

use crate::{CopyRange, Session};
use store::memory::read;
use store::registers::register;
use words::Register;

// The words, or the marks, from `start` on and before `end` are zero.
pub fn zero_to<T: Copy + PartialEq>(list: &[T], zero: T, start: usize, end: usize) -> bool
    ensures { result ≡ all_of (λ i. T.eq (get_or list.now i zero) zero) (end - start) start }
{
    (start..end).all(|i| read(list, i, zero) == zero)
}

fn stamp_ok(next: u64) -> bool
    ensures { result ≡ stamp_ok next }
{
    next != 0 && next < 1 << 32
}

fn count_ok(choices: u8, n: u64) -> bool
    ensures { result ≡ count_ok choices n }
{
    n != 0 && n <= choices as u64 + 1
}

#[tactic(auto, unfolding(crate::specs::Rows::head_ok))]
pub fn head_ok(choices: u8, tables: &[u64]) -> bool
    ensures { result ≡ head_ok choices tables.now }
{
    stamp_ok(read(tables, 0, 0)) && count_ok(choices, read(tables, 1, 0))
}

impl<'a> Session<'a> {
    #[tactic(auto, unfolding(crate::specs::Rows::register_ok))]
    fn register_ok(&self, r: Register, c: u8) -> bool
        ensures { result ≡ register_ok (session_of self.now) r c }
    {
        match r {
            Register::Empty => true,
            Register::Region(stamp) => self.stamp_in(stamp),
            Register::Term(t) => self.ref_ok(t, CopyRange { since: c, upto: c }),
        }
    }

    // Register r of copy c.
    fn row_word_ok(&self, c: u8, r: u8) -> bool
        ensures { result ≡ row_word_ok (session_of self.now) c r }
    {
        let Some(x) = Register::of_word(register(self.tables, c, r)) else {
            return false;
        };
        self.register_ok(x, c)
    }

    #[tactic(auto, unfolding(crate::specs::Rows::row_ok))]
    fn row_ok(&self, c: u8) -> bool
        ensures { result ≡ row_ok (session_of self.now) c }
    {
        (0..32).all(|r| self.row_word_ok(c, r))
    }

    // The rows of the copies 1 to the present one.
    fn all_rows_ok(&self) -> bool
        ensures { result ≡ all_of (row_ok (session_of self.now)) self.now.present 1 }
    {
        (1..1 + self.present as u16).all(|c| self.row_ok(c as u8))
    }

    #[tactic(auto, unfolding(crate::specs::Rows::rows_ok))]
    pub fn rows_ok(&self, choices: u8) -> bool
        ensures { result ≡ rows_ok (session_of self.now) choices }
    {
        let start = self.present as usize * 32 + 2;
        self.all_rows_ok() && zero_to(self.tables, 0, start, choices as usize * 32 + 34)
    }
}
