// The table of calls. A new call is a row here; its numbers and bytes are read by that.
use crate::{Brought, Call, Line, Need, Place, Rest};
use test_text::Fault;

const ANSWER: Need = Need::Number(255, Fault::Answer);

// Returns the row of a call: the number that it needs, if any, and what it takes after that. A name is its letters after a 1.
fn call_of(name: u64) -> Place {
    match &name.to_be_bytes() {
        b"\0\0\x01start" => Place::Takes(Call::Start, Rest::Nothing),
        b"\0\0\x01raise" => Place::Takes(Call::Raise, Rest::Nothing),
        b"\0\0\x01lower" => Place::Needs(Call::Lower, Need::Hex, Rest::Nothing),
        b"\0\0\0\x01feed" => Place::Takes(Call::Feed, Rest::Bytes),
        b"\x01surface" => Place::Needs(Call::Surface, ANSWER, Rest::Bytes),
        b"\0\0\x01reset" => Place::Takes(Call::Reset, Rest::Nothing),
        b"\0\0\x01image" => Place::Takes(Call::Image, Rest::Nothing),
        b"\x01convert" => Place::Takes(Call::Convert, Rest::Bytes),
        _ => Place::Wrong(Fault::Word),
    }
}

// Returns the line after a piece, which ends here.
fn take(line: Line, brought: &mut Brought) -> Line {
    let piece = line.piece;
    line.take(line.place.effect(piece, call_of(piece.name)), brought)
}

// Returns the line with one more character.
pub fn step(line: Line, ch: u8, brought: &mut Brought) -> Line {
    if ch == b' ' {
        return take(line, brought);
    }
    line.step(ch)
}

// Returns the line, which ends here. An empty line has no piece.
pub fn end(line: Line, brought: &mut Brought) -> Line {
    if line.place.is_start() {
        return line;
    }
    take(line, brought).close()
}
