// The tests of a record (document 01's code 1), the command decoded, the ways in which a rule ends, and
// the four status bytes.
#![tactic(auto)]

ghost use Rattle.std.specs.Prelude.{◌≡◌, cond, ◌&&◌, ◌||◌, ◌<◌, eqb};
ghost use Rattle.geometry.specs.Geometry.{spare_of};
ghost use Rattle.drive.specs.Words.{kind_of, number_of, order_of, is_read, is_write, is_verify, row_of, fails, latches, status_of};
ghost use Rattle.drive.specs.Results.{in_phase, with_marks, with_run, say, refuse, alters, places, altered, ended, reported, clean, on_present};
ghost use Rattle.drive.specs.Results.{report, ends, numbered, asks_store, stores, wants_store, finish};
ghost use Rattle.drive.specs.Records.{retry_ok, target_ok, trial_ok, access_ok, phase_ok, state_ok};
ghost use Rattle.drive.specs.Retries.{met};
ghost use Rattle.drive.specs.Sparing.{has_unused};
ghost use Rattle.drive.specs.Handshake.{opened};
ghost use Rattle.drive.specs.declared.Answer.TheVariants as answer;

use drive::{
    Access, Answer, Cause, Change, Close, Ending, Four, Kind, Leaves, Marks, Offer, Order, Part,
    Phase, Refusal, Retry, Row, Seen, State, Target, Trial, Turn,
};
use geometry::{Block, Sector};

// Holds what becomes of a command by its store. undone: it fails for want of one that was done; unsettled: the store was
// answered 3. Two flags, since the status has a bit for each.
#[derive(Clone, Copy, Default)]
pub struct Store {
    pub undone: bool,
    pub unsettled: bool,
}

// Says whether a read command passes code 1.
#[tactic(auto, unfolding(drive::specs::Records::retry_ok))]
pub fn retry_ok(r: Retry) -> bool
    ensures { result ≡ retry_ok r }
{
    geometry::is_block(r.block)
        & geometry::is_sector(r.sector)
        & (u32::from(r.seen.errors) + u32::from(r.left) <= 255)
        & (r.spent <= 89)
}

// Says whether s is the sector of the next unused spare, with n listed.
fn is_next_unused(n: usize, s: u32) -> bool
    ensures { result ≡ (has_unused n && eqb s (spare_of n).0) }
{
    table::next_spare(n).is_some_and(|at| s == at.0)
}

// Says whether a write command's write, or its verify, passes code 1.
pub fn target_ok(w: Target) -> bool
    ensures { result ≡ target_ok w }
{
    geometry::is_block(w.block) & geometry::is_sector(w.sector)
}

// Says whether a trial passes code 1, with n spares listed.
#[tactic(auto, unfolding(drive::specs::Records::trial_ok))]
pub fn trial_ok(n: usize, r: Trial) -> bool
    ensures { result ≡ trial_ok n r }
{
    geometry::is_block(r.block)
        & geometry::is_sector(r.sector)
        & (r.rereads <= 100)
        & (r.failures <= r.rereads)
        & (!r.spare | is_next_unused(n, r.sector.0))
}

// Says whether an awaited access passes code 1. known: there is a table.
fn access_ok(n: usize, known: bool, x: Access) -> bool
    ensures { result ≡ access_ok n known x }
{
    match x {
        Access::Start(k) => k <= 10,
        Access::Store(_) => known,
        Access::Read(r) => known & retry_ok(r),
        Access::Write(w) | Access::Verify(w) => known & target_ok(w),
        Access::TrialWrite(r) | Access::TrialRead(r) => known & trial_ok(n, r),
    }
}

// Says whether the phase passes code 1.
pub fn phase_ok(n: usize, known: bool, p: Phase) -> bool
    ensures { result ≡ phase_ok n known p }
{
    match p {
        Phase::Idle | Phase::Offered(_) | Phase::Command | Phase::Data => true,
        Phase::Awaiting(x) => access_ok(n, known, x),
    }
}

// Says whether all of the record but the table passes code 1.
#[tactic(auto, unfolding(drive::specs::Records::state_ok))]
pub fn state_ok(n: usize, l: State) -> bool
    ensures { result ≡ state_ok n l }
{
    (l.count <= 6) & (l.fed <= 533) & phase_ok(n, l.marks.known, l.phase)
}

// Returns the kind of a command.
#[tactic(auto, unfolding(drive::specs::Words::kind_of))]
fn kind_of(command: [u8; 6]) -> Kind
    ensures { result ≡ kind_of command }
{
    match command[0] {
        0x00 => Kind::Read,
        0x01 => Kind::Write,
        0x02 => Kind::Verify,
        _ => Kind::Other,
    }
}

// Returns the number in a command's block field.
#[tactic(auto, unfolding(drive::specs::Words::number_of))]
fn number_of(command: [u8; 6]) -> u32
    ensures { result ≡ number_of command }
{
    u32::from(command[1]) * 65536 + u32::from(command[2]) * 256 + u32::from(command[3])
}

// Decodes a command.
pub fn order_of(command: [u8; 6]) -> Order
    ensures { result ≡ order_of command }
{
    Order {
        kind: kind_of(command),
        number: number_of(command),
        retries: command[4],
        threshold: command[5],
    }
}

// Says whether a command of this kind is a read. This and the next two are the definitions of these names.
pub fn is_read(k: Kind) -> bool
    ensures { result ≡ is_read k }
{
    matches!(k, Kind::Read)
}

// Says whether a command of this kind is a write.
pub fn is_write(k: Kind) -> bool
    ensures { result ≡ is_write k }
{
    matches!(k, Kind::Write)
}

// Says whether a command of this kind is a write/verify.
pub fn is_verify(k: Kind) -> bool
    ensures { result ≡ is_verify k }
{
    matches!(k, Kind::Verify)
}

// Returns what a command has met at its start: nothing.
pub fn clean() -> Seen
    ensures { result ≡ clean }
{
    Seen::default()
}

// Returns what was met, with answer a. Here and in every rule an answer is the surface's byte and no enum: the call takes any
// byte, `accesses::surface`, `reading::read`, `sparing::tried` and `checked` do so too, and the definitions speak of every number.
pub fn met(a: u8, s: Seen) -> Seen
    ensures { result ≡ met a s }
{
    Seen {
        crc: s.crc | (a == 1),
        timeout: s.timeout | (a == 2),
        ..s
    }
}

// Returns the trial of a block's present sector, before its first reread.
pub fn on_present(block: Block, sector: Sector, seen: Seen) -> Trial
    ensures { result ≡ on_present block sector seen }
{
    Trial {
        block,
        sector,
        spare: false,
        rereads: 0,
        failures: 0,
        seen,
        last: Cause::Unknown,
        before: Cause::Unknown,
        present: Cause::Unknown,
    }
}

// Returns the state in another phase.
pub fn in_phase(l: State, p: Phase) -> State
    ensures { result ≡ in_phase l p }
{
    State { phase: p, ..l }
}

// Returns the state with other marks in another phase.
pub fn with_marks(l: State, m: Marks, p: Phase) -> State
    ensures { result ≡ with_marks l m p }
{
    State {
        phase: p,
        marks: m,
        ..l
    }
}

// Returns the state with another run number.
pub fn with_run(l: State, n: u32) -> State
    ensures { result ≡ with_run l n }
{
    State { run: n, ..l }
}

// Answers a, and leaves table and buffer alone.
pub fn say(l: State, a: Answer) -> Turn
    ensures { result ≡ say l a }
{
    Turn {
        state: l,
        answer: a,
        change: Change::Keep,
        leaves: Leaves {
            status: None,
            part: Part::Kept,
        },
    }
}

// Refuses the call, and leaves all unchanged.
pub fn refuse(l: State, r: Refusal) -> Turn
    ensures { result ≡ refuse r l }
{
    say(l, Answer::Refused(r))
}

// Makes an offer, with n command bytes kept and no data byte fed.
pub fn offer(l: State, o: Offer, n: usize) -> Turn
    ensures { result ≡ say (opened l o n) (answer.Offer o) }
{
    let next = State {
        phase: Phase::Offered(o),
        count: n,
        fed: 0,
        ..l
    };
    say(next, Answer::Offer(o))
}

// Returns v where a flag is set, else 0: a bit of a status byte, or a figure of the health block.
// An if says it plainer than u8::from(on) * v.
pub fn bit(on: bool, v: u8) -> u8
    ensures { result ≡ cond on v 0 }
{
    if on { v } else { 0 }
}

// Returns what an ending sets of status bytes 1, 2 and 3, but for bits 4 and 0 of the first.
fn row_of(e: Ending) -> Row
    ensures { result ≡ row_of e }
{
    match e {
        Ending::Good | Ending::Failed | Ending::Latched => Row(0x00, 0x00, 0x00),
        Ending::Moved => Row(0x00, 0x04, 0x00),
        Ending::Overrun => Row(0x40, 0x00, 0x00),
        Ending::NoNumber => Row(0x00, 0x00, 0x40),
        Ending::NoTable(true) => Row(0x40, 0x08, 0x00),
        Ending::NoTable(false) => Row(0x00, 0x08, 0x00),
        Ending::BadFull => Row(0x00, 0x10, 0x00),
        Ending::NoSpare => Row(0x00, 0x40, 0x00),
    }
}

// Says whether a command that ends so has failed.
fn fails(e: Ending) -> bool
    ensures { result ≡ fails e }
{
    !matches!(e, Ending::Good | Ending::Moved)
}

// Says whether an ending sets the latch.
fn latches(e: Ending) -> bool
    ensures { result ≡ latches e }
{
    matches!(e, Ending::Latched)
}

// Returns status 1 bit 0: the command failed, or its store was not done.
fn failed_bit(e: Ending, unstored: bool) -> u8
    ensures { result ≡ cond (fails e || unstored) 0x01 0 }
{
    bit(fails(e) | unstored, 0x01)
}

// Returns status 1 bit 4: answer 3, to the store too, or the latch.
fn latch_bit(e: Ending, unsettled: bool) -> u8
    ensures { result ≡ cond (latches e || unsettled) 0x10 0 }
{
    bit(latches(e) | unsettled, 0x10)
}

// Returns the four status bytes of a finish.
#[tactic(auto, unfolding(drive::specs::Words::status_of))]
fn status_of(k: Close, store: Store, fresh: bool) -> Four
    ensures { result ≡ status_of k.ending k.seen store.undone store.unsettled fresh }
{
    let r = row_of(k.ending);
    let a = r.0
        + failed_bit(k.ending, store.undone)
        + latch_bit(k.ending, store.unsettled)
        + bit(k.seen.crc, 0x08)
        + bit(k.seen.timeout, 0x04);
    let c = r.2 + bit(fresh, 0x80);
    Four(a, r.1, c, k.seen.errors)
}

// Says whether a change adds, kills or removes an entry.
fn alters(c: Change) -> bool
    ensures { result ≡ alters c }
{
    !matches!(c, Change::Keep | Change::Load)
}

// Says whether a change gives some block another place.
fn places(c: Change) -> bool
    ensures { result ≡ places c }
{
    matches!(c, Change::Move(_, _, _))
}

// Returns the marks after a change of the table.
pub fn altered(m: Marks, c: Change) -> Marks
    ensures { result ≡ altered m c }
{
    Marks {
        changed: alters(c) | m.changed,
        moved: places(c) | m.moved,
        ..m
    }
}

// Returns the marks where a command ends.
fn ended(m: Marks, c: Change, e: Ending) -> Marks
    ensures { result ≡ ended m c e }
{
    let a = altered(m, c);
    Marks {
        latch: latches(e) | a.latch,
        ..a
    }
}

// Returns the marks after a finish.
fn reported(m: Marks) -> Marks
    ensures { result ≡ reported m }
{
    Marks { fresh: false, ..m }
}

// Finishes the command with its four status bytes. m are the marks where it ended.
// c and p stay apart, here and in the rules: each is chosen by itself, and is a field of the turn by itself.
pub fn report(l: State, m: Marks, c: Change, k: Close, store: Store, p: Part) -> Turn
    ensures { result ≡ report l m c k.ending k.seen store.undone store.unsettled p }
{
    Turn {
        state: with_marks(l, reported(m), Phase::Idle),
        answer: Answer::Finished,
        change: c,
        leaves: Leaves {
            status: Some(status_of(k, store, m.fresh)),
            part: p,
        },
    }
}

// Finishes a command that is for no block, without an access.
pub fn ends(l: State, e: Ending, p: Part) -> Turn
    ensures { result ≡ ends l e p }
{
    let c = Change::Keep;
    let k = Close {
        ending: e,
        seen: clean(),
    };
    report(l, ended(l.marks, c, e), c, k, Store::default(), p)
}

// Returns the state with its run number one up, up to FFFFFFFF hex.
fn numbered(l: State) -> State
    ensures { result ≡ numbered l }
{
    with_run(l, l.run.saturating_add(1))
}

// Asks for the store, and keeps how the command ended until its answer.
fn ask_store(l: State, m: Marks, c: Change, k: Close, p: Part) -> Turn
    ensures { result ≡ asks_store l m c k.ending k.seen p }
{
    Turn {
        state: with_marks(numbered(l), m, Phase::Awaiting(Access::Store(k))),
        answer: Answer::Store,
        change: c,
        leaves: Leaves {
            status: None,
            part: p,
        },
    }
}

// Says whether a command that ends with these marks stores the table.
fn stores(m: Marks) -> bool
    ensures { result ≡ stores m }
{
    m.known & m.changed & !m.latch
}

// Says whether it fails for want of a store.
fn wants_store(m: Marks) -> bool
    ensures { result ≡ wants_store m }
{
    m.latch & m.moved
}

// Ends a command for a block: asks for the store where one is due, else finishes.
// e and s come apart: a rule names the ending, what was met comes from its record. From here on they go as a Close.
#[tactic(auto, unfolding(drive::specs::Results::finish))]
pub fn finish(l: State, c: Change, e: Ending, s: Seen, p: Part) -> Turn
    ensures { result ≡ finish l c e s p }
{
    let m = ended(l.marks, c, e);
    let k = Close { ending: e, seen: s };
    if stores(m) {
        return ask_store(l, m, c, k, p);
    }
    let store = Store {
        undone: wants_store(m),
        unsettled: false,
    };
    report(l, m, c, k, store, p)
}
