// Reads the lines of a call script and writes those of its transcript, as docs/REPLAY.md has them. A line is a name, then
// numbers, then bytes. It comes a character at a time: a blank ends a piece, and its place in the line says what it is for.
#![tactic(auto)]

mod calls;
mod print;
mod sum;

ghost use Rattle.std.specs.Prelude.{◌≡◌};
ghost use Rattle.test_script.specs.Reading.{Reads, name_on, digit_on, new_piece, piece_on, at_most, hex_of, brings, lends, unless_empty, needed, taken, effect, is_start, place_on, may_end, goes_to, new_line, line_on, closed, done};

pub use calls::{end, step};
pub use print::{put_call, put_image};
use test_text::{Fault, Token};

// The calls. What each takes is said in the table of `calls`.
#[derive(Clone, Copy)]
pub enum Call {
    Start,
    Raise,
    Lower,
    Feed,
    Surface,
    Reset,
    Image,
    Convert,
}

// The number that a call needs first: a byte in hex, without a count, or a decimal number up to this, or else the fault.
#[derive(Clone, Copy)]
pub enum Need {
    Hex,
    Number(u32, Fault),
}

// What a call takes after that.
#[derive(Clone, Copy)]
pub enum Rest {
    Nothing,
    Bytes,
}

// What the next piece of a line is for. Start: no character was read. Word: the name, or also `lend` where it is true.
// Length: the number after `lend`.
#[derive(Clone, Copy)]
pub enum Place {
    Start,
    Skipped,
    Word(bool),
    Length,
    Needs(Call, Need, Rest),
    Takes(Call, Rest),
    Wrong(Fault),
}

// What a piece does: it leads to a place, says how much is lent, or brings a number or bytes and leads to a place.
#[derive(Clone, Copy)]
pub enum Effect {
    Goes(Place),
    Lends(u32),
    Number(u32, Place),
    Bytes(Place),
}

// What was read of a piece, as a name, as a decimal number and as a byte with a count. A name is a number, since the definitions
// `name_on` and `named` say so.
#[derive(Clone, Copy)]
pub struct Piece {
    pub name: u64,
    pub number: Option<u32>,
    pub token: Token,
}

// What was read of a line. It brought `count` numbers and `used` bytes, which are at the front of what is lent for them. Its call
// is lent so many bytes, or as many as it wants.
#[derive(Clone, Copy)]
pub struct Line {
    pub lent: Option<usize>,
    pub count: usize,
    pub used: usize,
    pub place: Place,
    pub piece: Piece,
}

// What is lent for the numbers and the bytes that a line brings.
#[derive(Drop)]
pub struct Brought<'a> {
    pub numbers: &'a mut [u32],
    pub bytes: &'a mut [u8],
}

// The name with no letters. Each letter adds 8 bits, so that names of up to seven letters are different numbers.
const NO_LETTERS: u64 = 1;

const LEND: u64 = 0x01_6c65_6e64;

// Returns the name with one more letter. All names of more than seven letters are one number, which no call has.
#[tactic(auto, using(std::proofs::lemmas::Bool::Decides::nat_tests), unfolding(crate::specs::Reading::name_on))]
fn letter(name: u64, ch: u8) -> u64
    ensures { result ≡ name_on name ch }
{
    if 0x100_0000_0000_0000 <= name {
        return u64::MAX;
    }
    name * 256 + u64::from(ch)
}

// Returns the number with one more digit.
fn digit(number: Option<u32>, ch: u8) -> Option<u32>
    ensures { result ≡ digit_on number ch }
{
    test_text::number_on(number?, ch, u32::MAX)
}

impl Piece {
    fn new() -> Piece
        ensures { result ≡ new_piece }
    {
        Piece {
            name: NO_LETTERS,
            number: Some(0),
            token: Token::Gap,
        }
    }

    // Returns the piece with one more character.
    fn step(self, ch: u8) -> Piece
        ensures { result ≡ piece_on self ch }
    {
        Piece {
            name: letter(self.name, ch),
            number: digit(self.number, ch),
            token: self.token.step(ch),
        }
    }
}

// Returns the number if it is at most `most`.
fn at_most(number: Option<u32>, most: u32) -> Option<u32>
    ensures { result ≡ at_most most number }
{
    number.filter(|n| *n <= most)
}

// Returns a byte without a count.
fn hex_of(token: Token) -> Option<u32>
    ensures { result ≡ hex_of token }
{
    match token {
        Token::Byte(b) => Some(u32::from(b)),
        _ => None,
    }
}

// Brings a number, if there is one.
fn bring(number: Option<u32>, fault: Fault, next: Place) -> Effect
    ensures { result ≡ brings number fault next }
{
    match number {
        Some(n) => Effect::Number(n, next),
        None => Effect::Goes(Place::Wrong(fault)),
    }
}

// Lends so many bytes, if there is a number.
fn lend(number: Option<u32>) -> Effect
    ensures { result ≡ lends number }
{
    match number {
        Some(n) => Effect::Lends(n),
        None => Effect::Goes(Place::Wrong(Fault::Length)),
    }
}

impl Need {
    // Returns what a piece does that the call needs so.
    fn effect(self, piece: Piece, next: Place) -> Effect
        ensures { result ≡ needed self piece next }
    {
        match self {
            Need::Hex => bring(hex_of(piece.token), Fault::Byte, next),
            Need::Number(most, fault) => bring(at_most(piece.number, most), fault, next),
        }
    }
}

impl Rest {
    // Returns what a piece does that the call takes so.
    fn effect(self, next: Place) -> Effect
        ensures { result ≡ taken self next }
    {
        match self {
            Rest::Nothing => Effect::Goes(Place::Wrong(Fault::Arguments)),
            Rest::Bytes => Effect::Bytes(next),
        }
    }
}

// Refuses an empty piece: there are two blanks, or one at the line's end.
#[tactic(auto, using(std::proofs::lemmas::Bool::Decides::nat_tests), unfolding(crate::specs::Reading::unless_empty))]
fn unless_empty(name: u64, effect: Effect) -> Effect
    ensures { result ≡ unless_empty name effect }
{
    if name == NO_LETTERS {
        return Effect::Goes(Place::Wrong(Fault::Arguments));
    }
    effect
}

impl Place {
    fn is_start(self) -> bool
        ensures { result ≡ is_start self }
    {
        matches!(self, Place::Start)
    }

    // Says whether a line that ends here lacks nothing.
    fn may_end(self) -> bool
        ensures { result ≡ may_end self }
    {
        !matches!(self, Place::Word(_) | Place::Length | Place::Needs(..))
    }

    // Returns the place after one more character that is no blank.
    fn step(self, ch: u8) -> Place
        ensures { result ≡ place_on self ch }
    {
        match self {
            Place::Start if ch == b'#' => Place::Skipped,
            Place::Start => Place::Word(true),
            _ => self,
        }
    }

    // Returns what a piece does here. What the table of calls has for it as a name is `found`.
    #[tactic(auto, using(std::proofs::lemmas::Bool::Decides::nat_tests), unfolding(crate::specs::Reading::named))]
    fn effect(self, piece: Piece, found: Place) -> Effect
        ensures { result ≡ effect self piece found }
    {
        let name = piece.name;
        match self {
            Place::Start => Effect::Goes(Place::Wrong(Fault::Word)),
            Place::Skipped => Effect::Goes(Place::Skipped),
            Place::Word(first) => {
                let next = if first && name == LEND {
                    Place::Length
                } else {
                    found
                };
                unless_empty(name, Effect::Goes(next))
            }
            Place::Length => unless_empty(name, lend(at_most(piece.number, 600))),
            Place::Needs(call, need, rest) => {
                unless_empty(name, need.effect(piece, Place::Takes(call, rest)))
            }
            Place::Takes(call, rest) => unless_empty(name, rest.effect(Place::Takes(call, rest))),
            Place::Wrong(fault) => Effect::Goes(Place::Wrong(fault)),
        }
    }
}

impl Line {
    pub fn new() -> Line
        ensures { result ≡ new_line }
    {
        Line {
            lent: None,
            count: 0,
            used: 0,
            place: Place::Start,
            piece: Piece::new(),
        }
    }

    // Returns the line with a new piece, which is for this place.
    fn at(self, place: Place) -> Line
        ensures { result ≡ goes_to self place }
    {
        Line {
            place,
            piece: Piece::new(),
            ..self
        }
    }

    // Returns the line with one more character that is no blank.
    fn step(self, ch: u8) -> Line
        ensures { result ≡ line_on self ch }
    {
        Line {
            place: self.place.step(ch),
            piece: self.piece.step(ch),
            ..self
        }
    }

    // Returns the line, which has no further piece. It is wrong if something lacks.
    fn close(self) -> Line
        ensures { result ≡ closed self }
    {
        if self.place.may_end() {
            self.at(self.place)
        } else {
            self.at(Place::Wrong(Fault::Arguments))
        }
    }

    // Returns the line after a piece with this effect.
    #[tactic(auto, using(std::proofs::lemmas::Bool::Decides::nat_tests), unfolding(crate::specs::Reading::counted, crate::specs::Reading::laid))]
    fn take(self, effect: Effect, brought: &mut Brought) -> Line
        ensures { Reads (done effect self brought.old.numbers.now brought.old.bytes.now) result brought.old brought.new }
    {
        match effect {
            Effect::Goes(place) => self.at(place),
            Effect::Lends(n) => Line {
                lent: Some(n as usize),
                ..self.at(Place::Word(false))
            },
            Effect::Number(n, next) => {
                if brought.numbers.len() <= self.count {
                    return self.at(Place::Wrong(Fault::Arguments));
                }
                brought.numbers[self.count] = n;
                Line {
                    count: self.count + 1,
                    ..self.at(next)
                }
            }
            Effect::Bytes(next) => {
                match test_text::keep(brought.bytes, self.used, self.piece.token.end()) {
                    Ok(used) => Line {
                        used,
                        ..self.at(next)
                    },
                    Err(fault) => self.at(Place::Wrong(fault)),
                }
            }
        }
    }
}
