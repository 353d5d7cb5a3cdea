// The calls over a record's words, which are lent: unpacked, called, and what comes of it written back. A
// refused call writes nothing. Convert has no record.
#![tactic(auto)]

ghost use Rattle.std.specs.Prelude.{◌≡◌, ◌++◌, take};
ghost use Rattle.drive.specs.Calls as call;
ghost use Rattle.drive.specs.Views.{of_answer};
ghost use Rattle.calls.specs.Gives.{Gives, Formed, Answers, notes_of, altered_of};
ghost use Rattle.packed.specs.Packing.{table_at, unpack_of};
ghost use Rattle.crossing.specs.Crossing.{reply, reply_of, note_words, Keeps, shown, start_shown, image_shown, shown_bytes, convert_shown};

use calls::tables::Noted;
use calls::{Controller, Record};
use drive::{Answer, Change, Drive, Turn};
use packed::Words;
use table::Lent;

// Holds what a call answers: 0 wait, 1 offer and its response byte, 2 read and its sector, 3 write and its
// sector, 4 store, 5 finished, 6 refused and the code. The kind stays a number: this is what C is handed.
#[repr(C)]
#[derive(Clone, Copy)]
pub struct Reply {
    pub kind: u32,
    pub value: u32,
}

impl Reply {
    fn new(kind: u32, value: u32) -> Reply
        ensures { result ≡ reply kind value }
    {
        Reply { kind, value }
    }
}

// Returns the two numbers of an answer.
impl From<Answer> for Reply {
    ghost from_gives = { λ x r. r ≡ reply_of x };

    fn from(a: Answer) -> Reply {
        match a {
            Answer::Wait => Reply::new(0, 0),
            Answer::Offer(o) => Reply::new(1, u32::from(u8::from(o))),
            Answer::Read(s) => Reply::new(2, s.0),
            Answer::Write(s) => Reply::new(3, s.0),
            Answer::Store => Reply::new(4, 0),
            Answer::Finished => Reply::new(5, 0),
            Answer::Refused(r) => Reply::new(6, u32::from(r)),
        }
    }
}

// Says whether an answer is a refusal.
fn is_refused(a: Answer) -> bool
    ensures { result ≡ (of_answer a).refused }
{
    matches!(a, Answer::Refused(_))
}

// Lends the record of the words.
#[tactic(auto, unfolding(packed::specs::Packing::table_at))]
fn lent(w: &Words) -> Record<'_>
    ensures { result ≡ unpack_of w.now }
{
    Record {
        table: Lent {
            spares: packed::spares(w),
            bads: packed::bads(w),
            nspares: usize::from(w[23]),
            nbads: usize::from(w[24]),
        },
        causes: packed::causes(w),
        state: packed::state_at(w),
    }
}

// Raises the CMD line. This and the next four lend the words for reading alone; what comes of the call is written by `keep` or
// `settle`.
pub fn raise(w: &Words, buf: &mut [u8]) -> Turn
    ensures { Gives call.raise (unpack_of w.now) buf.old result buf.new }
{
    calls::raise(&lent(w), buf)
}

// Lowers the CMD line with byte b.
pub fn lower(w: &Words, buf: &mut [u8], b: u8) -> Turn
    ensures { Gives (call.lower b) (unpack_of w.now) buf.old result buf.new }
{
    calls::lower(&lent(w), buf, b)
}

// Feeds bytes.
pub fn feed(w: &Words, buf: &mut [u8], bytes: &[u8]) -> Turn
    ensures { Gives (call.feed bytes.now) (unpack_of w.now) buf.old result buf.new }
{
    calls::feed(&lent(w), buf, bytes)
}

// Takes the surface's answer and the bytes that came with it.
pub fn surface(w: &Words, buf: &mut [u8], a: u8, bytes: &[u8]) -> Turn
    ensures { Answers a bytes.now (unpack_of w.now) buf.old result buf.new }
{
    calls::surface(&lent(w), buf, a, bytes)
}

// Resets the drive.
pub fn reset(w: &Words, buf: &mut [u8]) -> Turn
    ensures { Gives call.reset (unpack_of w.now) buf.old result buf.new }
{
    calls::reset(&lent(w), buf)
}

// Writes the state of a turn, unless it refuses, and returns its reply.
#[tactic(auto, using(crate::proofs::Crossed::state_packed))]
pub fn keep(w: &mut Words, x: Turn) -> Reply
    ensures { Keeps (notes_of (unpack_of w.old)) x w.old result w.new }
{
    let reply = Reply::from(x.answer);
    if is_refused(x.answer) {
        return reply;
    }
    packed::put_state(w, x.state);
    reply
}

// Writes what a change makes of the table and its causes.
#[tactic(auto, using(crate::proofs::Crossed::table_kept))]
fn alter(w: &mut Words, c: Change, bytes: &[u8])
    requires { Formed bytes.now c }
    ensures { w.new ≡ take 23 w.old ++ note_words (altered_of c (notes_of (unpack_of w.old)) bytes.now) }
{
    if matches!(c, Change::Keep) {
        return;
    }
    let k = Noted {
        table: packed::table_at(w),
        causes: packed::causes_at(w),
    };
    let r = calls::tables::alter(k, c, bytes);
    packed::put_table(w, r.table, r.causes);
}

// Writes the state, the table and the causes of a turn, unless it refuses, and returns its reply.
pub fn settle(w: &mut Words, x: Turn, bytes: &[u8]) -> Reply
    requires { Formed bytes.now x.change }
    ensures { Keeps (altered_of x.change (notes_of (unpack_of w.old)) bytes.now) x w.old result w.new }
{
    let reply = keep(w, x);
    if is_refused(x.answer) {
        return reply;
    }
    alter(w, x.change, bytes);
    reply
}

// Returns the controller of the words.
fn controller_at(w: &Words) -> Controller
    ensures { result.0 ≡ unpack_of w.now }
{
    Controller(Drive {
        table: packed::table_at(w),
        causes: packed::causes_at(w),
        state: packed::state_at(w),
    })
}

// Starts the drive: zeroes the buffer, writes a new record and returns the reply, unless it refuses.
pub fn start(w: &mut Words, buf: &mut [u8]) -> Reply
    ensures { shown result w.new buf.new ≡ start_shown w.old buf.old }
{
    let step = controller_at(w).start(buf);
    let reply = Reply::from(step.answer);
    if is_refused(step.answer) {
        return reply;
    }
    packed::put_state(w, step.drive.state);
    packed::put_table(w, step.drive.table, step.drive.causes);
    reply
}

// Builds the table's image, form B, in the 532 bytes lent.
pub fn image(w: &Words, buf: &mut [u8]) -> Reply
    ensures { shown result w.now buf.new ≡ image_shown w.now buf.old }
{
    Reply::from(controller_at(w).image(buf).answer)
}

// Turns an image of either form into the other, in a second lent buffer.
pub fn convert(from: &[u8], to: &mut [u8]) -> Reply
    ensures { shown_bytes result to.new ≡ convert_shown from.now to.old }
{
    Reply::from(calls::convert(from, to))
}
