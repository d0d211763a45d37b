// The lines of a run, written into a lent buffer. Nothing is allocated, and what does not fit is cut off. `write!` is not used: to a writer that states its bytes it
// ensures them only where it answers `Ok`, and no promise says that it does so where the writer never fails (docs/DECISIONS.md, 45).

ghost use Rattle.std.specs.Prelude.{◌≡◌, [], ◌∷◌, ◌++◌, map, ◌+◌, ◌%◌};
ghost use Rattle.machine.specs.Program.{decimal, space, step_line, step_lines, last_line, refused_line};
ghost use Rattle.words.specs.Answers.{answer_of};
ghost use Rattle.listing.specs.Text.{written_of, writes, SameLoan, opening_text};

use machine::State;
use words::Answer;

// The text so far, and the place of its next byte.
#[derive(Drop)]
pub struct Lines<'a> {
    pub bytes: &'a mut [u8],
    pub at: usize,
}

impl<'a> Lines<'a> {
    #[tactic(auto, unfolding(crate::specs::Text::writes, crate::specs::Text::write))]
    pub fn put_byte(&mut self, b: u8)
        ensures written { written_of self.new ≡ writes (b ∷ []) (written_of self.old) }
        ensures kept { SameLoan self.old self.new }
    {
        if self.at < self.bytes.len() {
            self.bytes[self.at] = b;
            self.at += 1;
        }
    }

    // A fixed text.
    #[tactic(auto, using(crate::proofs::Text::text_more), unfolding(crate::specs::Text::writes))]
    pub fn put_text(&mut self, text: &[u8])
        ensures written { written_of self.new ≡ writes text.now (written_of self.old) }
        ensures kept { SameLoan self.old self.new }
    {
        for b in text {
            self.put_byte(*b);
        }
    }

    // All but the last digit, then the last: at most 20 calls deep.
    #[tactic(auto, using(crate::proofs::Text::decimal_small, crate::proofs::Text::decimal_large))]
    pub fn put_decimal(&mut self, n: u64)
        ensures written { written_of self.new ≡ writes (decimal n) (written_of self.old) }
        ensures kept { SameLoan self.old self.new }
    {
        if 10 <= n {
            self.put_decimal(n / 10);
        }
        self.put_byte(b'0' + (n % 10) as u8);
    }

    // A label and a number.
    #[tactic(auto, using(crate::proofs::Text::writes_append))]
    fn put_labelled(&mut self, label: &[u8], n: u64)
        ensures written { written_of self.new ≡ writes (label.now ++ decimal n) (written_of self.old) }
        ensures kept { SameLoan self.old self.new }
    {
        self.put_text(label);
        self.put_decimal(n);
    }

    // A number after a space.
    #[tactic(auto, unfolding(crate::specs::Text::writes))]
    fn put_number(&mut self, n: u64)
        ensures written { written_of self.new ≡ writes (space ∷ decimal n) (written_of self.old) }
        ensures kept { SameLoan self.old self.new }
    {
        self.put_byte(b' ');
        self.put_decimal(n);
    }

    #[tactic(auto, using(crate::proofs::Text::writes_append), unfolding(machine::specs::Program::step_line, crate::specs::Text::writes))]
    pub fn put_step_line(&mut self, number: usize, a: Answer)
        ensures written { written_of self.new ≡ writes (step_line number a) (written_of self.old) }
        ensures kept { SameLoan self.old self.new }
    {
        self.put_decimal(number as u64);
        self.put_number(a.status as u64);
        self.put_number(a.kind as u64);
        self.put_number(a.pairs as u64);
        self.put_number(a.payload as u64);
        self.put_byte(b'\n');
    }

    // A line for each answer word, the first of which has that number.
    #[tactic(auto, using(crate::proofs::Text::lines_one_more), unfolding(machine::specs::Program::step_lines, crate::specs::Text::writes))]
    pub fn put_step_lines(&mut self, number: u32, answers: &[u64])
        ensures written { written_of self.new ≡ writes (step_lines number (map answer_of answers.now)) (written_of self.old) }
        ensures kept { SameLoan self.old self.new }
    {
        for (i, w) in answers.iter().enumerate() {
            self.put_step_line(number as usize + i, Answer::from(*w));
        }
    }

    #[tactic(auto, using(crate::proofs::Text::writes_append), unfolding(crate::specs::Text::opening_text, crate::specs::Text::writes))]
    pub fn put_opening_line(&mut self, pages: u16, stamp: u32)
        ensures written { written_of self.new ≡ writes (opening_text pages stamp) (written_of self.old) }
        ensures kept { SameLoan self.old self.new }
    {
        self.put_labelled(b"pages ", pages as u64);
        self.put_labelled(b" stamp ", stamp as u64);
        self.put_byte(b'\n');
    }

    #[tactic(auto, using(crate::proofs::Text::writes_append), unfolding(machine::specs::Program::last_line, crate::specs::Text::writes))]
    pub fn put_last_line(&mut self, s: State)
        ensures written { written_of self.new ≡ writes (last_line s) (written_of self.old) }
        ensures kept { SameLoan self.old self.new }
    {
        self.put_labelled(b"free ", s.free as u64);
        self.put_labelled(b" choices ", s.choices as u64);
        self.put_labelled(b" next ", s.next as u64);
        self.put_byte(b'\n');
    }

    pub fn put_refused(&mut self)
        ensures written { written_of self.new ≡ writes refused_line (written_of self.old) }
        ensures kept { SameLoan self.old self.new }
    {
        self.put_text(b"refused\n");
    }
}
