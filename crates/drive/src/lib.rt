// The controller's record, what a rule decides and what a call answers: types, the numbers that causes, offers and refusals
// have, and the refusal of a fault. specs/ says what the calls do with them, and the crates above hold the rest of the code.
#![tactic(auto)]

ghost use Rattle.std.specs.Prelude.{◌≡◌};
ghost use Rattle.drive.specs.Words.{response, cause_number, code_of};
ghost use Rattle.drive.specs.Calls.{refusal_for};

use geometry::{Block, Sector};
use image::Fault;
use table::Table;

// Holds what a command has met so far. errors is document 01's E: how many of the R rereads failed.
#[derive(Clone, Copy, Default)]
pub struct Seen {
    pub errors: u8,
    pub crc: bool,
    pub timeout: bool,
}

// Holds a read command under way. first: its first read is awaited, and left is R. Otherwise left counts
// the rereads left, the awaited one included; where it is 0, a further read is awaited, and spent is
// what further reads have cost. threshold is T. good: the data part holds good bytes. first stands beside the numbers, and is no
// kind that has them: code 1 passes each mix (`retry_ok`).
#[derive(Clone, Copy)]
pub struct Retry {
    pub block: Block,
    pub sector: Sector,
    pub first: bool,
    pub left: u8,
    pub spent: u8,
    pub threshold: u8,
    pub good: bool,
    pub seen: Seen,
}

// Holds a write command's write to its block's present sector. verify: it is read back once.
#[derive(Clone, Copy)]
pub struct Target {
    pub block: Block,
    pub sector: Sector,
    pub verify: bool,
}

// Names the cause of a spare entry: unknown, a CRC error, a timeout, no settle.
#[derive(Clone, Copy)]
pub enum Cause {
    Unknown,
    Crc,
    Timeout,
    NoSettle,
}

// Holds the trial of a sector: the block's present one, or the next unused spare. rereads counts those
// that were answered, failures how many of them failed. Three failures of the command are remembered:
// last is the last of this trial's rereads, before the one before this spare was tried, present the last
// on the block's present sector, once that was left.
#[derive(Clone, Copy)]
pub struct Trial {
    pub block: Block,
    pub sector: Sector,
    pub spare: bool,
    pub rereads: u8,
    pub failures: u8,
    pub seen: Seen,
    pub last: Cause,
    pub before: Cause,
    pub present: Cause,
}

// Names the commands by their opcode: 00 read, 01 write, 02 write/verify, and every other one.
#[derive(Clone, Copy)]
pub enum Kind {
    Read,
    Write,
    Verify,
    Other,
}

// Returns the number of a cause.
impl From<Cause> for u16 {
    ghost from_gives = { λ x r. r ≡ cause_number x };

    fn from(x: Cause) -> u16 {
        match x {
            Cause::Unknown => 0,
            Cause::Crc => 1,
            Cause::Timeout => 2,
            Cause::NoSettle => 3,
        }
    }
}

// Holds a decoded command: what it asks for, the number in its block field, R and T.
#[derive(Clone, Copy)]
pub struct Order {
    pub kind: Kind,
    pub number: u32,
    pub retries: u8,
    pub threshold: u8,
}

// Names what the drive offers at a raise: to take a command, to read, to take data for a write or for a
// write/verify, to act on a write.
#[derive(Clone, Copy)]
pub enum Offer {
    Command,
    Read,
    Write,
    Verify,
    Act,
}

// Returns the response byte of an offer.
impl From<Offer> for u8 {
    ghost from_gives = { λ x r. r ≡ response x };

    fn from(x: Offer) -> u8 {
        match x {
            Offer::Command => 0x01,
            Offer::Read => 0x02,
            Offer::Write => 0x03,
            Offer::Verify => 0x04,
            Offer::Act => 0x06,
        }
    }
}

// Holds a command's end, while its store is awaited: how it ended, and what it has met.
#[derive(Clone, Copy)]
pub struct Close {
    pub ending: Ending,
    pub seen: Seen,
}

// Names what the surface was asked for: a read of the start (with how many were asked for), the store
// before a command finishes, a read command's read, a write command's write and the verify that follows
// it, and the write and a reread of a trial.
#[derive(Clone, Copy)]
pub enum Access {
    Start(u8),
    Store(Close),
    Read(Retry),
    Write(Target),
    Verify(Target),
    TrialWrite(Trial),
    TrialRead(Trial),
}

// Names where the drive is. Awaiting: the surface owes an answer.
#[derive(Clone, Copy)]
pub enum Phase {
    Idle,
    Offered(Offer),
    Command,
    Data,
    Awaiting(Access),
}

// Holds five marks. known: there is a table. changed: it has changes that are not stored. moved: some
// block's place is not stored. latch: an answer 3 has ended a command since the last start. fresh: no
// command finished since the last start or reset. known is no Option of a table: the record has one in either case, and code 1
// tests it (`record_ok`).
#[derive(Clone, Copy, Default)]
pub struct Marks {
    pub known: bool,
    pub changed: bool,
    pub moved: bool,
    pub latch: bool,
    pub fresh: bool,
}

// Holds all of the record but the table and its causes. command: its first count bytes were fed; fed: how many data
// bytes were, counted up to 533; run: the run number, one more per store asked for.
#[derive(Clone, Copy)]
pub struct State {
    pub phase: Phase,
    pub marks: Marks,
    pub command: [u8; 6],
    pub count: usize,
    pub fed: usize,
    pub run: u32,
}

// Holds the record. The table is first, so that a call can hand it on in one copy. The cause of a spare entry is at the entry's
// place, and is a number: a C program may lend any, and code 1 refuses those above 3. The causes are an array beside the table's,
// as the words of C have them.
#[derive(Clone, Copy)]
pub struct Drive {
    pub table: Table,
    pub causes: [u16; 32],
    pub state: State,
}

// Names why a call is refused, in the order of the codes.
#[derive(Clone, Copy)]
pub enum Refusal {
    Record,
    Buffer,
    Place,
    Answer,
    Bytes,
    Form,
    Sum,
    Field,
}

// Returns the code of a refusal.
impl From<Refusal> for u32 {
    ghost from_gives = { λ x r. r ≡ code_of x };

    fn from(x: Refusal) -> u32 {
        match x {
            Refusal::Record => 1,
            Refusal::Buffer => 2,
            Refusal::Place => 3,
            Refusal::Answer => 4,
            Refusal::Bytes => 5,
            Refusal::Form => 6,
            Refusal::Sum => 7,
            Refusal::Field => 8,
        }
    }
}

// Returns the refusal of bytes that are no image.
impl From<Fault> for Refusal {
    ghost from_gives = { λ x r. r ≡ refusal_for x };

    fn from(x: Fault) -> Refusal {
        match x {
            Fault::Form => Refusal::Form,
            Fault::Sum => Refusal::Sum,
            Fault::Field => Refusal::Field,
        }
    }
}

// Names what a call answers.
#[derive(Clone, Copy)]
pub enum Answer {
    Wait,
    Offer(Offer),
    Read(Sector),
    Write(Sector),
    Store,
    Finished,
    Refused(Refusal),
}

// Holds what a call hands back.
#[derive(Clone, Copy)]
pub struct Step {
    pub drive: Drive,
    pub answer: Answer,
}

// Names how a command ends: good; good and moved; failed; too many data bytes; no such number; no table
// (true: on a write); answer 3 or the latch; failed with the bad list full; no spare unused.
#[derive(Clone, Copy)]
pub enum Ending {
    Good,
    Moved,
    Failed,
    Overrun,
    NoNumber,
    NoTable(bool),
    Latched,
    BadFull,
    NoSpare,
}

// Names what a call does to the table: nothing, the image that came is its new content, a block enters
// or leaves the bad list, a block moves to the next unused spare (its old entry dies, and it leaves the
// bad list), the next unused spare dies. With a move come the causes of the new entry and of the old one,
// with a dead spare its cause.
#[derive(Clone, Copy)]
pub enum Change {
    Keep,
    Load,
    Enter(Block),
    Remove(Block),
    Move(Block, Cause, Cause),
    Kill(Cause),
}

// Holds four bytes: a status, or the figures of the health block.
#[derive(Clone, Copy)]
pub struct Four(pub u8, pub u8, pub u8, pub u8);

// Names what becomes of the buffer's data part: it stays, the bytes lent with the call fill it from a
// byte on, it is zeroed from a byte on, it is form A of the table, it is four figures and zeros.
#[derive(Clone, Copy)]
pub enum Part {
    Kept,
    Filled(usize),
    Zeroed(usize),
    Image,
    Figures(Four),
}

// Holds what a call leaves in the buffer. status: the status bytes that it writes; without one they stay.
#[derive(Clone, Copy)]
pub struct Leaves {
    pub status: Option<Four>,
    pub part: Part,
}

// Holds what a rule decides: the next state, the answer, what becomes of the table and of the buffer.
#[derive(Clone, Copy)]
pub struct Turn {
    pub state: State,
    pub answer: Answer,
    pub change: Change,
    pub leaves: Leaves,
}

// Holds what an ending sets of status bytes 1, 2 and 3, but for bits 4 and 0 of the first.
#[derive(Clone, Copy)]
pub struct Row(pub u8, pub u8, pub u8);

// Names what an answer to a read command's read leads to: done at the first read; one more read; good
// after errors, so that E and T decide; never good; ended by answer 3.
#[derive(Clone, Copy)]
pub enum Outcome {
    Done(Retry),
    Again(Retry),
    Settle(Retry),
    Lost(Retry),
    Stop(Retry),
}
