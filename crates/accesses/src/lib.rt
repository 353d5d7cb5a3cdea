// The surface's answers: to the start's reads, the store, a read command, a write and its verify, and a
// sector trial; document 01's codes 4 and 5 first.
#![tactic(auto)]

ghost use Rattle.std.specs.Prelude.{◌≡◌, true, []};
ghost use Rattle.drive.specs.declared.Phase.TheVariants as phase;
ghost use Rattle.drive.specs.declared.Answer.TheVariants as answer;
ghost use Rattle.drive.specs.Records.{access_ok, state_ok};
ghost use Rattle.drive.specs.Results.{say, in_phase};
ghost use Rattle.drive.specs.Access.{asks_read, answer_fits, bytes_fit, is_compared, verifies, with_table, start_answered, store_marks, store_answered};
ghost use Rattle.drive.specs.Access.{written, write_answered, verify_answered, follows, answered};

use drive::{
    Access, Answer, Cause, Change, Close, Ending, Leaves, Marks, Part, Phase, Refusal, State,
    Target, Trial, Turn,
};
use records::Store;
use table::Lent;

// Says whether an access reads.
fn asks_read(x: Access) -> bool
    ensures { result ≡ asks_read x }
{
    matches!(
        x,
        Access::Start(_) | Access::Read(_) | Access::Verify(_) | Access::TrialRead(_)
    )
}

// Says whether what an access brings is compared with the data part.
fn is_compared(x: Access) -> bool
    ensures { result ≡ is_compared x }
{
    matches!(x, Access::Verify(_) | Access::TrialRead(_))
}

// Says whether the bytes that came are compared with the data part.
pub fn verifies(p: Phase, a: u8) -> bool
    ensures { result ≡ verifies p a }
{
    match p {
        Phase::Awaiting(x) => is_compared(x) & (a == 0),
        Phase::Idle | Phase::Offered(_) | Phase::Command | Phase::Data => false,
    }
}

// Says whether code 4 does not apply: an answer of 0 to 3, and no 1 to a write.
fn answer_fits(read: bool, a: u8) -> bool
    ensures { result ≡ answer_fits read a }
{
    (a <= 3) & (read | (a != 1))
}

// Says whether code 5 does not apply to n bytes: 532 with a read's 0 or 1, else none.
fn bytes_fit(read: bool, a: u8, n: usize) -> bool
    ensures { result ≡ bytes_fit read a n }
{
    n == if read & (a <= 1) { 532 } else { 0 }
}

// Ends the start with the table that was read, and its run number.
fn with_table(l: State, run: u32) -> Turn
    ensures { result ≡ with_table l run }
{
    let marks = Marks {
        known: true,
        ..l.marks
    };
    Turn {
        state: records::with_marks(records::with_run(l, run), marks, Phase::Idle),
        answer: Answer::Wait,
        change: Change::Load,
        leaves: Leaves {
            status: None,
            part: Part::Kept,
        },
    }
}

// Ends the start with no table.
fn give_up(l: State) -> Turn
    ensures { result ≡ say (in_phase l phase.Idle) answer.Wait }
{
    records::say(records::in_phase(l, Phase::Idle), Answer::Wait)
}

// Counts read k of the start, which brought no table: asks for one more, up to ten.
#[tactic(auto, unfolding(drive::specs::Access::start_answered))]
fn count_try(k: u8, l: State) -> Turn
    ensures { result ≡ start_answered k l 2 [] }
{
    if k < 10 {
        return records::say(
            records::in_phase(l, Phase::Awaiting(Access::Start(k + 1))),
            Answer::Read(geometry::table_sector()),
        );
    }
    give_up(l)
}

// Returns what answer a to read k of the start leads to: the table, if a well-formed image came.
fn start(k: u8, l: State, a: u8, bytes: &[u8]) -> Turn
    ensures { result ≡ start_answered k l a bytes.now }
{
    if a == 3 {
        return give_up(l);
    }
    if a != 0 {
        return count_try(k, l);
    }
    let Ok(image) = codec::read_image(bytes) else {
        return count_try(k, l);
    };
    with_table(l, image.run)
}

// Returns the marks after answer a to the store: 0 clears those of what is unstored, 3 latches.
fn store_marks(m: Marks, a: u8) -> Marks
    ensures { result ≡ store_marks m a }
{
    Marks {
        changed: m.changed & (a != 0),
        moved: m.moved & (a != 0),
        latch: m.latch | (a == 3),
        ..m
    }
}

// Finishes the command whose store was answered: as it ended, with what the store met, and failed unless
// the store was done.
#[tactic(auto, unfolding(drive::specs::Access::store_answered))]
fn store(k: Close, l: State, a: u8) -> Turn
    ensures { result ≡ store_answered k l a }
{
    let close = Close {
        seen: records::met(a, k.seen),
        ..k
    };
    let store = Store {
        undone: a != 0,
        unsettled: a == 3,
    };
    records::report(
        l,
        store_marks(l.marks, a),
        Change::Keep,
        close,
        store,
        Part::Kept,
    )
}

// Goes on after a write that was done: a write/verify reads it back.
fn written(l: State, w: Target) -> Turn
    ensures { result ≡ written l w }
{
    if w.verify {
        return records::say(
            records::in_phase(l, Phase::Awaiting(Access::Verify(w))),
            Answer::Read(w.sector),
        );
    }
    records::finish(l, Change::Keep, Ending::Good, records::clean(), Part::Kept)
}

// Returns what answer a to a write command's write leads to: a timeout goes to the next spare.
#[tactic(auto, unfolding(drive::specs::Access::write_answered))]
fn write(l: State, t: &Lent, w: Target, a: u8) -> Turn
    ensures { result ≡ write_answered l t.now w a }
{
    let s = records::clean();
    match a {
        0 => written(l, w),
        3 => records::finish(l, Change::Keep, Ending::Latched, s, Part::Kept),
        _ => {
            let failed = Trial {
                before: Cause::Timeout,
                present: Cause::Timeout,
                ..records::on_present(w.block, w.sector, records::met(a, s))
            };
            sparing::next_spare(t.nspares, l, Change::Keep, failed)
        }
    }
}

// Returns what answer a to its verify leads to. equal: it is 0, with the bytes of the data part.
#[tactic(auto, unfolding(drive::specs::Access::verify_answered))]
fn verify(l: State, w: Target, a: u8, equal: bool) -> Turn
    ensures { result ≡ verify_answered l w a equal }
{
    let s = records::clean();
    if a == 3 {
        return records::finish(l, Change::Keep, Ending::Latched, s, Part::Kept);
    }
    if equal {
        return records::finish(l, Change::Keep, Ending::Good, s, Part::Kept);
    }
    let met = records::met(sparing::fault(a, equal), s);
    let trial = records::on_present(w.block, w.sector, met);
    sparing::begin(l, Change::Keep, trial, Part::Kept)
}

// Returns what the answer to each access leads to. Answer, bytes and equal come together, and go apart here, each to other
// rules, so they are no struct.
#[tactic(auto, unfolding(drive::specs::Access::follows))]
fn follow(x: Access, l: State, t: &Lent, a: u8, bytes: &[u8], equal: bool) -> Turn
    requires { access_ok t.now.nspares l.marks.known x ≡ true }
    ensures { result ≡ follows x l t.now a bytes.now equal }
{
    match x {
        Access::Start(k) => start(k, l, a, bytes),
        Access::Store(k) => store(k, l, a),
        Access::Read(r) => reading::read(l, t, r, a),
        Access::Write(w) => write(l, t, w, a),
        Access::Verify(w) => verify(l, w, a, equal),
        Access::TrialWrite(r) => sparing::tried(l, t, r, a),
        Access::TrialRead(r) => sparing::checked(l, t, r, a, equal),
    }
}

// Refuses with code 4 or 5, or follows the awaited access.
#[tactic(auto, unfolding(drive::specs::Access::answered, drive::specs::Access::fitting))]
fn fit(x: Access, l: State, t: &Lent, a: u8, bytes: &[u8], equal: bool) -> Turn
    requires { access_ok t.now.nspares l.marks.known x ≡ true }
    ensures { result ≡ answered (phase.Awaiting x) l t.now a bytes.now equal }
{
    let read = asks_read(x);
    if !answer_fits(read, a) {
        return records::refuse(l, Refusal::Answer);
    }
    if !bytes_fit(read, a, bytes.len()) {
        return records::refuse(l, Refusal::Bytes);
    }
    follow(x, l, t, a, bytes, equal)
}

// Returns what the surface's answer does in each phase. equal: a verify brought the bytes of the data part.
#[tactic(auto, unfolding(drive::specs::Access::answered, drive::specs::Records::state_ok))]
pub fn surface(l: State, t: &Lent, a: u8, bytes: &[u8], equal: bool) -> Turn
    requires { state_ok t.now.nspares l ≡ true }
    ensures { result ≡ answered l.phase l t.now a bytes.now equal }
{
    match l.phase {
        Phase::Awaiting(x) => fit(x, l, t, a, bytes, equal),
        Phase::Idle | Phase::Offered(_) | Phase::Command | Phase::Data => {
            records::refuse(l, Refusal::Place)
        }
    }
}
