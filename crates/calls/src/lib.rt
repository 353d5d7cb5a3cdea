// The seven calls of document 01, and convert of document 02, request 6. Each of the seven refuses with
// codes 1 and 2, lets its rule decide, and leaves the buffer as the turn says. Over lent lists: whoever
// holds a record, in whatever form, calls these. Over the whole record: the methods of Controller.
#![tactic(auto)]

ghost use Rattle.std.specs.Prelude.{◌≡◌, ◌&&◌};
ghost use Rattle.buffer.specs.Runs.{same};
ghost use Rattle.drive.specs.Words.{data_of};
ghost use Rattle.drive.specs.declared.Drive.{Drive};
ghost use Rattle.drive.specs.Records.{record_ok};
ghost use Rattle.drive.specs.Access.{verifies};
ghost use Rattle.drive.specs.Calls as call;
ghost use Rattle.drive.specs.Calls.{convert_of};
ghost use Rattle.drive.specs.Calls.{started, start_of, raise_of, lower_of, feed_of, surface_of, reset_of, image_out_of};
ghost use Rattle.calls.specs.Gives.{guard_of, Asked, Turned, Returns, record_of, notes_of, handed, Gives, Answers, answer_for, Converts};

use drive::{Access, Answer, Drive, Marks, Phase, Refusal, State, Step, Turn};
use std::marker::Model;
use table::{Bounded, Lent, Table};
use tables::Noted;

pub mod tables;

// Holds a record as it is lent, in whatever form it is held: its table, the causes of its spare entries, its state. A contract
// sees it as the record.
#[derive(Drop)]
pub struct Record<'a> {
    pub table: Lent<'a>,
    pub causes: &'a [u16],
    pub state: State,
}

impl<'a> Model for Record<'a> {
    ghost Value = { Drive };

    ghost view = { λ r. record_of r.table r.causes.now r.state };
}

// Applies codes 1 and 2, and lends the table's lists where they pass. fits: as many bytes are lent as the call wants.
#[tactic(auto, unfolding(drive::specs::Records::record_ok))]
fn guard<'a>(d: &'a Record, fits: bool) -> Result<Bounded<'a>, Refusal>
    ensures { result ≡ guard_of (record_ok d.now) fits d.now.table }
{
    let n = d.table.nspares;
    let l = d.state;
    if !(d.table.is_ok() & table::causes_ok(d.causes, n) & records::state_ok(n, l)) {
        return Err(Refusal::Record);
    }
    if !fits {
        return Err(Refusal::Buffer);
    }
    Ok(Bounded { lent: &d.table })
}

// Lets a rule decide, unless codes 1 and 2 refuse the call, and leaves the buffer as it says. The closure is handed the table and
// the buffer, of which surface's makes the one bit that its rule learns; bytes are lent with the call. The state is read behind the
// guard, which costs less stack and time than before it.
fn turn<F: FnOnce(State, &Bounded<'_>, &[u8]) -> Turn>(
    d: &Record,
    buf: &mut [u8],
    bytes: &[u8],
    rule: F,
) -> Turn
    requires { Asked (F.pre rule d.now.state) d.now buf.old }
    ensures { Turned (F.post rule d.now.state) d.now buf.old bytes.now result buf.new }
{
    match guard(d, buf.len() == 536) {
        Err(r) => records::refuse(d.state, r),
        Ok(t) => {
            let x = rule(d.state, &t, buf);
            leaving::put(x.leaves, &t, bytes, buf);
            x
        }
    }
}

// Raises the CMD line.
pub fn raise(d: &Record, buf: &mut [u8]) -> Turn
    ensures { Gives call.raise d.now buf.old result buf.new }
{
    turn(d, buf, b"", |l, _, _| handshake::raise(l))
}

// Lowers the CMD line with byte b.
pub fn lower(d: &Record, buf: &mut [u8], b: u8) -> Turn
    ensures { Gives (call.lower b) d.now buf.old result buf.new }
{
    turn(d, buf, b"", |l, t, _| handshake::lower(l, t, b))
}

// Feeds bytes.
pub fn feed(d: &Record, buf: &mut [u8], bytes: &[u8]) -> Turn
    ensures { Gives (call.feed bytes.now) d.now buf.old result buf.new }
{
    turn(d, buf, bytes, |l, _, _| handshake::feed(l, bytes))
}

// Says whether a verify brought the bytes of the data part.
fn equal(p: Phase, buf: &[u8], a: u8, bytes: &[u8]) -> bool
    ensures { result ≡ (verifies p a && same bytes.now (data_of buf.now)) }
{
    if accesses::verifies(p, a) {
        return buffer::same_bytes(bytes, &buf[4.min(buf.len())..]);
    }
    false
}

// Takes the surface's answer and the bytes that came with it.
pub fn surface(d: &Record, buf: &mut [u8], a: u8, bytes: &[u8]) -> Turn
    ensures { Answers a bytes.now d.now buf.old result buf.new }
{
    turn(d, buf, bytes, |l, t, u| {
        let same = equal(l.phase, u, a, bytes);
        accesses::surface(l, t.lent, a, bytes, same)
    })
}

// Resets the drive. The buffer stays.
pub fn reset(d: &Record, buf: &mut [u8]) -> Turn
    ensures { Gives call.reset d.now buf.old result buf.new }
{
    turn(d, buf, b"", |l, _, _| handshake::reset(l))
}

// Lends a record.
fn lent(d: &Drive) -> Record<'_>
    ensures { result ≡ d.now }
{
    Record {
        table: d.table.lent(),
        causes: &d.causes,
        state: d.state,
    }
}

// Returns the record that start makes.
fn started() -> Drive
    ensures { result ≡ started }
{
    Drive {
        table: Table::empty(),
        causes: [0; 32],
        state: State {
            phase: Phase::Awaiting(Access::Start(1)),
            marks: Marks {
                fresh: true,
                ..Marks::default()
            },
            command: [0; 6],
            count: 0,
            fed: 0,
            run: 0,
        },
    }
}

// Hands a record back with the state and the answer of a turn.
fn hand_back(d: Drive, x: Turn) -> Step
    ensures { result ≡ handed (notes_of d) x }
{
    Step {
        drive: Drive {
            state: x.state,
            ..d
        },
        answer: x.answer,
    }
}

// Writes the image in the other form, if the first bytes are one of either form and both are 532.
fn try_convert(from: &[u8], to: &mut [u8]) -> Result<(), Refusal>
    ensures { Converts (convert_of from.now to.old) (answer_for result) to.new }
{
    if from.len() != 532 || to.len() != 532 {
        return Err(Refusal::Buffer);
    }
    let image = codec::read_image(from)?;
    let lists = image.table.lent();
    let t = Bounded { lent: &lists };
    if codec::is_form_b(from) {
        leaving::write_table(&t, to);
    } else {
        leaving::write_stored(0, &t, &image.causes, to);
    }
    Ok(())
}

// Turns an image of either form into the other, in a second lent buffer.
pub fn convert(from: &[u8], to: &mut [u8]) -> Answer
    ensures { Converts (convert_of from.now to.old) result to.new }
{
    match try_convert(from, to) {
        Ok(()) => Answer::Wait,
        Err(r) => Answer::Refused(r),
    }
}

// Holds the record of a drive.
#[derive(Clone, Copy)]
pub struct Controller(pub Drive);

impl Controller {
    // Makes the record anew, zeroes the buffer and asks for the table.
    #[tactic(auto, unfolding(drive::specs::Calls::start_of))]
    pub fn start(self, buf: &mut [u8]) -> Step
        ensures { Returns (start_of self.0 buf.old) result buf.new }
    {
        if buf.len() != 536 {
            return Step {
                drive: self.0,
                answer: Answer::Refused(Refusal::Buffer),
            };
        }
        buf.fill(0);
        Step {
            drive: started(),
            answer: Answer::Read(geometry::table_sector()),
        }
    }

    // Raises the CMD line.
    #[tactic(auto, unfolding(drive::specs::Calls::step_of))]
    pub fn raise(self, buf: &mut [u8]) -> Step
        ensures { Returns (raise_of self.0 buf.old) result buf.new }
    {
        hand_back(self.0, raise(&lent(&self.0), buf))
    }

    // Lowers the CMD line with byte b.
    #[tactic(auto, unfolding(drive::specs::Calls::step_of))]
    pub fn lower(self, buf: &mut [u8], b: u8) -> Step
        ensures { Returns (lower_of self.0 buf.old b) result buf.new }
    {
        hand_back(self.0, lower(&lent(&self.0), buf, b))
    }

    // Feeds bytes.
    #[tactic(auto, unfolding(drive::specs::Calls::step_of))]
    pub fn feed(self, buf: &mut [u8], bytes: &[u8]) -> Step
        ensures { Returns (feed_of self.0 buf.old bytes.now) result buf.new }
    {
        hand_back(self.0, feed(&lent(&self.0), buf, bytes))
    }

    // Takes the surface's answer and the bytes that came with it.
    #[tactic(auto, unfolding(drive::specs::Calls::step_of))]
    pub fn surface(self, buf: &mut [u8], a: u8, bytes: &[u8]) -> Step
        ensures { Returns (surface_of self.0 buf.old a bytes.now) result buf.new }
    {
        let x = surface(&lent(&self.0), buf, a, bytes);
        let Drive { table, causes, .. } = self.0;
        let k = Noted { table, causes };
        let Noted { table, causes } = tables::alter(k, x.change, bytes);
        Step {
            drive: Drive {
                table,
                causes,
                state: x.state,
            },
            answer: x.answer,
        }
    }

    // Resets the drive.
    #[tactic(auto, unfolding(drive::specs::Calls::step_of))]
    pub fn reset(self, buf: &mut [u8]) -> Step
        ensures { Returns (reset_of self.0 buf.old) result buf.new }
    {
        hand_back(self.0, reset(&lent(&self.0), buf))
    }

    // Builds the table's image, form B, in the 532 bytes lent.
    pub fn image(self, buf: &mut [u8]) -> Step
        ensures { Returns (image_out_of self.0 buf.old) result buf.new }
    {
        let d = lent(&self.0);
        let answer = match guard(&d, buf.len() == 532) {
            Err(r) => Answer::Refused(r),
            Ok(t) => {
                if self.0.state.marks.known {
                    leaving::write_stored(self.0.state.run, &t, d.causes, buf);
                    Answer::Wait
                } else {
                    Answer::Refused(Refusal::Place)
                }
            }
        };
        Step {
            drive: self.0,
            answer,
        }
    }
}
