// Writes characters onto a page.
ghost use Rattle.std.specs.Prelude.{◌≡◌, [], ◌∷◌, ◌<◌, take, cond, ltb, OnOk, OnErr};
ghost use Rattle.test_text.specs.Printing.{Puts, out_of, glyph_of, hex_text, decimal_text, run_text, bytes_text, fault_text, error_text};

use crate::Fault;
use std::io;

// A lent buffer, and the place up to which it is written. What finds no room is not written. It is no `fmt::Write`: of a `write!`
// that ends in an Err no clause says what it wrote, and here nothing fails.
#[derive(Drop)]
pub struct Page<'a> {
    pub out: &'a mut [u8],
    pub at: usize,
}

#[tactic(auto, using(std::proofs::lemmas::Bool::Decides::nat_tests), unfolding(crate::specs::Printing::glyph_of))]
fn glyph(d: u8) -> u8
    requires { d < 16 }
    ensures { result ≡ glyph_of d }
{
    if d < 10 { b'0' + d } else { b'a' + (d - 10) }
}

impl<'a> Page<'a> {
    // Returns a page on which nothing is written yet.
    pub fn new(out: &'a mut [u8]) -> Page<'a>
        ensures empty { out_of result ≡ record { at = 0; buffer = out.old } }
        ensures same_buffer { result.out.ghost_name ≡ out.entry.ghost_name }
    {
        Page { out, at: 0 }
    }

    // Returns what is written.
    pub fn written(&self) -> &[u8]
        ensures { result.now ≡ take self.now.at self.now.out.now }
    {
        buffer::cut(self.out, self.at)
    }

    // Begins anew, at the buffer's start.
    pub fn clear(&mut self)
        ensures { self.new ≡ record self.old { at = 0 } }
    {
        self.at = 0;
    }

    // Writes the page out, and begins anew. A page that cannot be written stays as it is.
    pub fn flush(&mut self, rt: &impl Print) -> io::Result<()>
        ensures emptied { OnOk result (self.new ≡ record self.old { at = 0 }) }
        ensures kept { OnErr result (self.new ≡ self.old) }
    {
        rt.write_all(self.written())?;
        self.clear();
        Ok(())
    }

    // Makes room for a line: flushes a page that is written further than place `full`.
    pub fn make_room(&mut self, rt: &impl Print, full: usize) -> io::Result<()>
        ensures emptied { OnOk result (self.new ≡ cond (ltb full self.old.at) (record self.old { at = 0 }) self.old) }
        ensures kept { OnErr result (self.new ≡ self.old) }
    {
        if self.at > full {
            self.flush(rt)?;
        }
        Ok(())
    }

    // Writes a character, if there is room.
    #[tactic(auto, using(crate::proofs::Laying::pushing), unfolding(crate::specs::Printing::laid))]
    pub fn push(&mut self, ch: u8)
        ensures { Puts (ch ∷ []) self.old self.new }
    {
        if self.at < self.out.len() {
            self.out[self.at] = ch;
            self.at += 1;
        }
    }

    // Writes a word.
    #[tactic(auto, using(crate::proofs::Laying::laid_more), unfolding(crate::specs::Printing::laid))]
    pub fn word(&mut self, word: &[u8])
        ensures { Puts word.now self.old self.new }
    {
        for ch in word {
            self.push(*ch);
        }
    }

    // Writes two lower-case digits.
    #[tactic(auto, unfolding(crate::specs::Printing::laid))]
    pub fn hex(&mut self, b: u8)
        ensures { Puts (hex_text b) self.old self.new }
    {
        self.push(glyph(b / 16));
        self.push(glyph(b % 16));
    }

    // Writes a decimal number.
    #[tactic(auto, using(crate::proofs::Laying::laid_append, crate::proofs::Digits::decimal_steps))]
    pub fn decimal(&mut self, n: u64)
        ensures { Puts (decimal_text n) self.old self.new }
    {
        if n >= 10 {
            self.decimal(n / 10);
        }
        self.push(b'0' + (n % 10) as u8);
    }

    // Writes a blank, and the token of a run of n bytes.
    #[tactic(auto, using(std::proofs::lemmas::Bool::Decides::nat_tests), unfolding(crate::specs::Printing::laid, crate::specs::Printing::run_text))]
    pub fn run(&mut self, b: u8, n: usize)
        ensures { Puts (run_text b n) self.old self.new }
    {
        self.push(b' ');
        self.hex(b);
        if n != 1 {
            self.push(b'*');
            self.decimal(n as u64);
        }
    }

    // Writes the bytes of s as tokens, each after a blank, one for each longest run of equal bytes.
    pub fn bytes(&mut self, s: &[u8])
        ensures { Puts (bytes_text s.now) self.old self.new }
    {
        for run in s.chunk_by(|a, b| a == b) {
            self.run(run[0], run.len());
        }
    }

    // Writes what is wrong with a line. The program has its own words for a wrong word.
    fn fault(&mut self, fault: Fault, wrong_word: &[u8])
        ensures { Puts (fault_text fault wrong_word.now) self.old self.new }
    {
        match fault {
            Fault::Word => self.word(wrong_word),
            Fault::Arguments => self.word(b"wrong arguments"),
            Fault::Byte => self.word(b"a byte is two hex digits"),
            Fault::Count => self.word(b"a count is 1 to 4096"),
            Fault::Answer => self.word(b"an answer is 0 to 255"),
            Fault::Length => self.word(b"a length is 0 to 600"),
            Fault::Many => self.word(b"more than 4096 bytes"),
        }
    }

    // Writes the line that ends a run at a wrong line.
    #[tactic(auto, using(crate::proofs::Laying::laid_append), unfolding(crate::specs::Printing::laid, crate::specs::Printing::error_text))]
    pub fn error(&mut self, line: u64, fault: Fault, wrong_word: &[u8])
        ensures { Puts (error_text line fault wrong_word.now) self.old self.new }
    {
        self.word(b"error: line ");
        self.decimal(line);
        self.word(b": ");
        self.fault(fault, wrong_word);
        self.push(b'\n');
    }
}
