// Register words: empty, a region's stamp (tag 7), or a term's reference (tag 8).

ghost use Rattle.std.specs.Prelude.{◌≡◌};
ghost use Rattle.words.specs.Words.{register_word, unpack_register};

use crate::heap::{STAMP_AT, TAG_AT, stamp, tag};
use crate::parts::exactly;
use crate::{Ref, Register};

const REGION_TAG: u64 = 7 * TAG_AT;

const TERM_TAG: u64 = 8 * TAG_AT;

impl From<Register> for u64 {
    ghost from_gives = { λ r w. w ≡ register_word 12 r };

    #[tactic(auto, unfolding(crate::specs::Words::register_word))]
    fn from(r: Register) -> u64 {
        match r {
            Register::Empty => 0,
            Register::Region(s) => REGION_TAG + s as u64 * STAMP_AT,
            Register::Term(t) => TERM_TAG + u64::from(t),
        }
    }
}

impl Register {
    // The register that a word says, if it says one.
    #[tactic(auto, using(crate::proofs::Holding::holding))]
    pub fn of_word(w: u64) -> Option<Register>
        ensures { result ≡ unpack_register 12 w }
    {
        match tag(w) {
            0 => exactly(w, Register::Empty),
            7 => exactly(w, Register::Region(stamp(w))),
            8 => exactly(w, Register::Term(Ref::from(w))),
            _ => None,
        }
    }
}
