// The registers of the copies: a row of 32 words of the tables for each copy, the oldest copy's row first.

ghost use Rattle.std.specs.Prelude.{◌≡◌};
ghost use Rattle.store.specs.Rows.{present, register_at, register_set, row_copied, row_cleared, held_at};

use crate::memory::{put, read};
use words::Register;

// The number of the present copy.
#[tactic(auto, unfolding(crate::specs::Rows::present))]
pub fn copy_number(tables: &[u64]) -> u8
    ensures { result ≡ present tables.now }
{
    (read(tables, 1, 0) % 256) as u8
}

// Register r of copy n. There is no copy 0.
#[tactic(auto, unfolding(crate::specs::Rows::register_at))]
pub fn register(tables: &[u64], n: u8, r: u8) -> u64
    ensures { result ≡ register_at tables.now n r }
{
    if n == 0 {
        0
    } else {
        read(tables, n as usize * 32 + r as usize - 30, 0)
    }
}

// What register r of the present copy holds.
#[tactic(auto, unfolding(crate::specs::Rows::held_at))]
pub fn held(tables: &[u64], r: u8) -> Option<Register>
    ensures { result ≡ held_at tables.now r }
{
    Register::of_word(register(tables, copy_number(tables), r))
}

#[tactic(auto, unfolding(crate::specs::Rows::register_set))]
pub fn set_register(tables: &mut [u64], n: u8, r: u8, w: u64)
    ensures { tables.new ≡ register_set tables.old n r w }
{
    if n != 0 {
        put(tables, n as usize * 32 + r as usize - 30, w);
    }
}

#[tactic(auto, using(laws::proofs::Turns::turns), unfolding(crate::specs::Rows::row_copied))]
pub fn copy_row(tables: &mut [u64], source: u8, target: u8)
    ensures { tables.new ≡ row_copied source target tables.old }
{
    for r in 0..32 {
        let w = register(tables, source, r);
        set_register(tables, target, r, w);
    }
}

#[tactic(auto, using(laws::proofs::Turns::turns), unfolding(crate::specs::Rows::row_cleared))]
pub fn clear_row(tables: &mut [u64], n: u8)
    ensures { tables.new ≡ row_cleared n tables.old }
{
    for r in 0..32 {
        set_register(tables, n, r, 0);
    }
}
