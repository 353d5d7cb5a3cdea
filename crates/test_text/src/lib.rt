// Reads and writes test texts a character at a time: hex bytes, counts, decimal numbers, words.
#![tactic(auto)]

mod print;
mod script;

ghost use Rattle.std.specs.Prelude.{◌≡◌, ◌<◌};
ghost use Rattle.test_text.specs.Reading.{decimal_digit, hex_digit, Below, number_on, first_digit, second_digit, starred, times_of, stepped, counted_run, run_of, is_open, kept_of, line_start, blanked, line_end, line_on};

pub use print::Page;
pub use script::{Script, read_all};

// What is wrong with a line. Length: a number of bytes to lend. Many: the line brings too many bytes.
#[derive(Clone, Copy)]
pub enum Fault {
    Word,
    Arguments,
    Byte,
    Count,
    Answer,
    Length,
    Many,
}

// What was read of a token, HH or HH*N.
#[derive(Clone, Copy)]
pub enum Token {
    Gap,
    High(u8),
    Byte(u8),
    Times(u8, u32),
    Bad(Fault),
}

// What a whole token brings: a byte, so many times.
#[derive(Clone, Copy)]
pub struct Run {
    pub byte: u8,
    pub times: u32,
}

// The tokens of a line: how many bytes the earlier ones brought, and the one that is read. The buffer of the bytes is lent at each
// step: a `Bytes` that held it could not be copied, as a line's place in `test_images` is.
#[derive(Clone, Copy)]
pub struct Bytes {
    pub used: usize,
    pub token: Token,
}

// Returns the value of a decimal digit, if the character is one.
#[tactic(auto, using(std::proofs::lemmas::Bool::Decides::nat_tests), unfolding(crate::specs::Reading::decimal_digit))]
pub fn decimal_digit(ch: u8) -> Option<u8>
    ensures { (result ≡ decimal_digit ch) × Below 10 result }
{
    match ch {
        b'0'..=b'9' => Some(ch - b'0'),
        _ => None,
    }
}

// Returns the value of a hex digit of either case, if the character is one.
#[tactic(auto, using(std::proofs::lemmas::Bool::Decides::nat_tests), unfolding(crate::specs::Reading::hex_digit))]
pub fn hex_digit(ch: u8) -> Option<u8>
    ensures { (result ≡ hex_digit ch) × Below 16 result }
{
    match ch {
        b'0'..=b'9' => Some(ch - b'0'),
        b'a'..=b'f' => Some(ch - b'a' + 10),
        b'A'..=b'F' => Some(ch - b'A' + 10),
        _ => None,
    }
}

// Returns n with one more decimal digit, if ch is one and the number is at most `most`.
#[tactic(auto, using(std::proofs::lemmas::Bool::Decides::nat_tests))]
pub fn number_on(n: u32, ch: u8, most: u32) -> Option<u32>
    ensures { result ≡ number_on n ch most }
{
    let v = u64::from(n) * 10 + u64::from(decimal_digit(ch)?);
    u32::try_from(v).ok().filter(|v| *v <= most)
}

fn first_digit(ch: u8) -> Token
    ensures { result ≡ first_digit (hex_digit ch) }
{
    match hex_digit(ch) {
        Some(d) => Token::High(d),
        None => Token::Bad(Fault::Byte),
    }
}

fn second_digit(h: u8, ch: u8) -> Token
    ensures { result ≡ second_digit h (hex_digit ch) }
{
    match hex_digit(ch) {
        Some(d) => Token::Byte(h % 16 * 16 + d),
        None => Token::Bad(Fault::Byte),
    }
}

#[tactic(auto, using(std::proofs::lemmas::Bool::Decides::nat_tests), unfolding(crate::specs::Reading::starred))]
fn star(b: u8, ch: u8) -> Token
    ensures { result ≡ starred b ch }
{
    match ch {
        b'*' => Token::Times(b, 0),
        _ => Token::Bad(Fault::Byte),
    }
}

fn count_on(b: u8, n: u32, ch: u8) -> Token
    ensures { result ≡ times_of b (number_on n ch 4096) }
{
    match number_on(n, ch, 4096) {
        Some(m) => Token::Times(b, m),
        None => Token::Bad(Fault::Count),
    }
}

#[tactic(auto, using(std::proofs::lemmas::Bool::Decides::nat_tests), unfolding(crate::specs::Reading::counted_run))]
fn counted(byte: u8, times: u32) -> Result<Run, Fault>
    ensures { result ≡ counted_run byte times }
{
    match times {
        0 => Err(Fault::Count),
        _ => Ok(Run { byte, times }),
    }
}

impl Token {
    // Returns the token with one more character.
    pub fn step(self, ch: u8) -> Token
        ensures { result ≡ stepped self ch }
    {
        match self {
            Token::Gap => first_digit(ch),
            Token::High(h) => second_digit(h, ch),
            Token::Byte(b) => star(b, ch),
            Token::Times(b, n) => count_on(b, n, ch),
            Token::Bad(_) => self,
        }
    }

    // Says whether no fault was met.
    pub fn is_open(self) -> bool
        ensures { result ≡ is_open self }
    {
        !matches!(self, Token::Bad(_))
    }

    // Returns what the token brings, which ends here.
    pub fn end(self) -> Result<Run, Fault>
        ensures { result ≡ run_of self }
    {
        match self {
            Token::Gap | Token::High(_) => Err(Fault::Byte),
            Token::Byte(byte) => Ok(Run { byte, times: 1 }),
            Token::Times(b, n) => counted(b, n),
            Token::Bad(f) => Err(f),
        }
    }
}

// Writes a token's bytes from place `used` of out on, if there is room. Returns the place after them.
#[tactic(auto, using(std::proofs::lemmas::Bool::Decides::nat_tests), unfolding(crate::specs::Reading::kept_run))]
pub fn keep(out: &mut [u8], used: usize, run: Result<Run, Fault>) -> Result<usize, Fault>
    ensures { record { answer = result; buffer = out.new } ≡ kept_of out.old used run }
{
    let Run { byte, times } = run?;
    let n = times as usize;
    if out.len() < used || out.len() - used < n {
        return Err(Fault::Many);
    }
    buffer::fill(out, used, n, byte);
    Ok(used + n)
}

impl Bytes {
    // Returns the tokens of a line before the first.
    pub fn new() -> Bytes
        ensures { result ≡ line_start }
    {
        Bytes {
            used: 0,
            token: Token::Gap,
        }
    }

    // Returns the tokens after a blank.
    fn blank(self, out: &mut [u8]) -> Bytes
        ensures { record { bytes = result; buffer = out.new } ≡ blanked self (line_end self out.old) }
    {
        match self.end(out) {
            Ok(used) => Bytes {
                used,
                token: Token::Gap,
            },
            Err(f) => Bytes {
                token: Token::Bad(f),
                ..self
            },
        }
    }

    // Returns the tokens with one more character.
    #[tactic(auto, using(std::proofs::lemmas::Bool::Decides::nat_tests), unfolding(crate::specs::Reading::line_on))]
    pub fn step(self, out: &mut [u8], ch: u8) -> Bytes
        ensures { record { bytes = result; buffer = out.new } ≡ line_on self out.old ch }
    {
        if ch == b' ' {
            return self.blank(out);
        }
        Bytes {
            token: self.token.step(ch),
            ..self
        }
    }

    // Returns where the bytes of the line end, which ends here.
    pub fn end(self, out: &mut [u8]) -> Result<usize, Fault>
        ensures { record { answer = result; buffer = out.new } ≡ line_end self out.old }
    {
        keep(out, self.used, self.token.end())
    }

    // Says whether no fault was met.
    pub fn is_open(self) -> bool
        ensures { result ≡ is_open self.token }
    {
        self.token.is_open()
    }
}
