// Answer words: status 4, kind 4, pairs 12, payload 32, zero 12.

ghost use Rattle.std.specs.Prelude.{◌≡◌};
ghost use Rattle.words.specs.Answers as answers;
ghost use Rattle.words.specs.Answers.{answer_word, answer_of, status_of};
ghost use Rattle.words.specs.Clip.{clipped_answer};

use crate::parts::bits;
use crate::{Answer, Refusal};

const STATUS_AT: u64 = 1 << 60;

const KIND_AT: u64 = 1 << 56;

const PAIRS_AT: u64 = 1 << 44;

const PAYLOAD_AT: u64 = 1 << 12;

// A field that is wider here than in the word is taken modulo its width.
impl From<Answer> for u64 {
    ghost from_gives = { λ a w. w ≡ answer_word (clipped_answer a) };

    #[tactic(auto, unfolding(crate::specs::Answers::answer_word, crate::specs::Clip::clipped_answer))]
    fn from(a: Answer) -> u64 {
        (a.status % 16) as u64 * STATUS_AT
            + (a.kind % 16) as u64 * KIND_AT
            + (a.pairs % 4096) as u64 * PAIRS_AT
            + a.payload as u64 * PAYLOAD_AT
    }
}

impl From<u64> for Answer {
    ghost from_gives = { λ w a. a ≡ answer_of w };

    #[tactic(auto, unfolding(crate::specs::Answers::answer_of))]
    fn from(w: u64) -> Answer {
        Answer {
            status: bits(w, 60, 4) as u8,
            kind: bits(w, 56, 4) as u8,
            pairs: bits(w, 44, 12) as u16,
            payload: bits(w, 12, 32) as u32,
        }
    }
}

// The status of a refusal.
impl From<Refusal> for u8 {
    ghost from_gives = { λ e s. s ≡ status_of e };

    fn from(e: Refusal) -> u8 {
        match e {
            Refusal::Differ => 1,
            Refusal::NoStep => 2,
            Refusal::NoRegion => 3,
            Refusal::Dead => 4,
            Refusal::NoPage => 5,
            Refusal::NoSlot => 6,
            Refusal::NoStamp => 7,
            Refusal::TooManyCopies => 8,
            Refusal::NoCopy => 9,
            Refusal::PairsSpent => 10,
            Refusal::Unbound => 11,
        }
    }
}

impl Answer {
    // A status and nothing else.
    pub fn plain(status: u8) -> Answer
        ensures { result ≡ answers.plain status }
    {
        Answer {
            status,
            kind: 0,
            pairs: 0,
            payload: 0,
        }
    }
}

// A refused step answers its status and nothing else.
impl From<Refusal> for Answer {
    ghost from_gives = { λ e a. a ≡ answers.plain (status_of e) };

    fn from(e: Refusal) -> Answer {
        Answer::plain(u8::from(e))
    }
}
