// A field of a word: some bits of it, from a lowest bit on.

ghost use Rattle.std.specs.Prelude.{◌≡◌, ◌≤◌, ◌<◌, ◌+◌};
ghost use Rattle.words.specs.Fields.{bits};
ghost use Rattle.words.specs.Integers.{int_of};
ghost use Rattle.words.specs.Exact.{exact};

// The n bits of w from bit `low` on.
#[tactic(auto, using(crate::proofs::Fields::no_bits, crate::proofs::Fields::all_bits))]
pub fn bits(w: u64, low: u32, n: u32) -> u64
    ensures { result ≡ bits low n w }
{
    if 64 <= low {
        0
    } else if 64 <= n {
        w >> low
    } else {
        (w >> low) % (1 << n)
    }
}

// The integer in the 32 bits of w from bit `low` on.
pub fn integer(w: u64, low: u32) -> i32
    ensures { result ≡ int_of (bits low 32 w) }
{
    (bits(w, low, 32) as u32).cast_signed()
}

// What the fields of a word say, if that is the whole of it: packed again it is this word, so no other bit is set.
pub fn exactly<T: Copy>(w: u64, x: T) -> Option<T>
where
    u64: From<T>,
    ensures { (v : _) × ⟦<u64 as From<T>>⟧.from_gives x v × (result ≡ exact v w x) }
{
    if u64::from(x) == w { Some(x) } else { None }
}
