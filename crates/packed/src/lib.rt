// The record as a C program holds it: 189 words of 16 bits. The state is packed into the first 23; the
// table's counts and entries come next, and the causes of its spare entries last. Any words are unpacked:
// a flag that is not 0 is true, and a phase, an offer or an ending that there is not becomes a phase that
// code 1 refuses.
#![tactic(auto)]

ghost use Rattle.std.specs.Prelude.{◌≡◌, ◌++◌, length, take, drop};
ghost use Rattle.packed.specs.Packing.{word, remembered, cause_of, ending_number, bare, store_stage, read_stage, target_stage, trial_stage, access_stage, stage_of};
ghost use Rattle.packed.specs.Packing.{damaged, offered, seen_of, storing, retry_of, target_of, trial_of, phase_of, pack_state, pack_table};
ghost use Rattle.packed.specs.Packing.{marks_at, stage_at, command_at, state_at, spares_at, bads_at, causes_at, table_at};

use drive::{Access, Cause, Close, Ending, Marks, Offer, Phase, Retry, Seen, State, Target, Trial};
use geometry::{Block, Sector};
use table::Table;

// Holds a record's words.
pub type Words = [u16; 189];

// Holds any phase. kind is 0 idle, 1 offered, 2 command, 3 data, 4 start, 5 store, 6 read, 7 write, 8 verify,
// 9 trial write, 10 trial read; detail is the offer's response byte, the start's reads, the number of the
// ending that waits for the store, or a trial's rereads; spent is also a trial's failures, first also
// whether a write is read back; remembered holds the three failures that a trial remembers. kind and
// detail stay numbers, since they lie so in the words, and a C program may lend any.
#[derive(Clone, Copy, Default)]
pub struct Stage {
    pub kind: u8,
    pub detail: u8,
    pub sector: u32,
    pub block: u16,
    pub remembered: u16,
    pub left: u8,
    pub errors: u8,
    pub spent: u8,
    pub threshold: u8,
    pub first: bool,
    pub good: bool,
    pub spare: bool,
    pub crc: bool,
    pub timeout: bool,
}

// Returns a number as a word.
fn word(n: usize) -> u16
    ensures { result ≡ word n }
{
    u16::try_from(n).unwrap_or(u16::MAX)
}

// Returns the cause of a number from 0 to 3. This and the number of an ending are no impl of From: they are what the words have
// (`Packing`), and a word that is no ending is a phase.
fn cause_of(n: u16) -> Cause
    ensures { result ≡ cause_of n }
{
    match n {
        0 => Cause::Unknown,
        1 => Cause::Crc,
        2 => Cause::Timeout,
        _ => Cause::NoSettle,
    }
}

// Returns the three failures that a trial remembers as a word.
fn remembered(r: Trial) -> u16
    ensures { result ≡ remembered r }
{
    u16::from(r.last) + 4 * u16::from(r.before) + 16 * u16::from(r.present)
}

// Returns the number of an ending.
fn ending_number(e: Ending) -> u8
    ensures { result ≡ ending_number e }
{
    match e {
        Ending::Good => 0,
        Ending::Moved => 1,
        Ending::Failed => 2,
        Ending::Overrun => 3,
        Ending::NoNumber => 4,
        Ending::NoTable(on_write) => if on_write { 6 } else { 5 },
        Ending::Latched => 7,
        Ending::BadFull => 8,
        Ending::NoSpare => 9,
    }
}

// Returns the stage of a phase with at most a detail.
fn bare(kind: u8, detail: u8) -> Stage
    ensures { result ≡ bare kind detail }
{
    Stage {
        kind,
        detail,
        ..Stage::default()
    }
}

// Returns the stage of the store that a command's end waits for.
impl From<Close> for Stage {
    ghost from_gives = { λ x r. r ≡ store_stage x };

    fn from(k: Close) -> Stage {
        Stage {
            errors: k.seen.errors,
            crc: k.seen.crc,
            timeout: k.seen.timeout,
            ..bare(5, ending_number(k.ending))
        }
    }
}

// Returns the stage of a read command.
impl From<Retry> for Stage {
    ghost from_gives = { λ x r. r ≡ read_stage x };

    fn from(r: Retry) -> Stage {
        Stage {
            sector: r.sector.0,
            block: r.block.0,
            left: r.left,
            errors: r.seen.errors,
            spent: r.spent,
            threshold: r.threshold,
            first: r.first,
            good: r.good,
            crc: r.seen.crc,
            timeout: r.seen.timeout,
            ..bare(6, 0)
        }
    }
}

// Returns the stage of a write command's write or verify.
fn target_stage(kind: u8, w: Target) -> Stage
    ensures { result ≡ target_stage kind w }
{
    Stage {
        sector: w.sector.0,
        block: w.block.0,
        first: w.verify,
        ..bare(kind, 0)
    }
}

// Returns the stage of a trial.
fn trial_stage(kind: u8, r: Trial) -> Stage
    ensures { result ≡ trial_stage kind r }
{
    Stage {
        sector: r.sector.0,
        block: r.block.0,
        remembered: remembered(r),
        errors: r.seen.errors,
        spent: r.failures,
        spare: r.spare,
        crc: r.seen.crc,
        timeout: r.seen.timeout,
        ..bare(kind, r.rereads)
    }
}

// Returns the stage of an awaited access.
impl From<Access> for Stage {
    ghost from_gives = { λ x r. r ≡ access_stage x };

    fn from(x: Access) -> Stage {
        match x {
            Access::Start(k) => bare(4, k),
            Access::Store(k) => Stage::from(k),
            Access::Read(r) => Stage::from(r),
            Access::Write(w) => target_stage(7, w),
            Access::Verify(w) => target_stage(8, w),
            Access::TrialWrite(r) => trial_stage(9, r),
            Access::TrialRead(r) => trial_stage(10, r),
        }
    }
}

// Returns the stage of a phase.
impl From<Phase> for Stage {
    ghost from_gives = { λ x r. r ≡ stage_of x };

    fn from(p: Phase) -> Stage {
        match p {
            Phase::Idle => bare(0, 0),
            Phase::Offered(o) => bare(1, u8::from(o)),
            Phase::Command => bare(2, 0),
            Phase::Data => bare(3, 0),
            Phase::Awaiting(x) => Stage::from(x),
        }
    }
}

// Returns a phase that code 1 refuses. It is no Option, since any words are a state (`state_at`).
fn damaged() -> Phase
    ensures { result ≡ damaged }
{
    Phase::Awaiting(Access::Start(255))
}

// Returns the phase with the offer of a response byte.
fn offered(n: u8) -> Phase
    ensures { result ≡ offered n }
{
    match n {
        0x01 => Phase::Offered(Offer::Command),
        0x02 => Phase::Offered(Offer::Read),
        0x03 => Phase::Offered(Offer::Write),
        0x04 => Phase::Offered(Offer::Verify),
        0x06 => Phase::Offered(Offer::Act),
        _ => damaged(),
    }
}

// Returns what a stage's command has met.
impl From<Stage> for Seen {
    ghost from_gives = { λ x r. r ≡ seen_of x };

    fn from(s: Stage) -> Seen {
        Seen {
            errors: s.errors,
            crc: s.crc,
            timeout: s.timeout,
        }
    }
}

// Returns the phase in which the ending of a stage's detail waits for the store.
fn storing(s: Stage) -> Phase
    ensures { result ≡ storing s }
{
    let ending = match s.detail {
        0 => Ending::Good,
        1 => Ending::Moved,
        2 => Ending::Failed,
        3 => Ending::Overrun,
        4 => Ending::NoNumber,
        5 => Ending::NoTable(false),
        6 => Ending::NoTable(true),
        7 => Ending::Latched,
        8 => Ending::BadFull,
        9 => Ending::NoSpare,
        _ => return damaged(),
    };
    Phase::Awaiting(Access::Store(Close {
        ending,
        seen: Seen::from(s),
    }))
}

// Returns the read command of a stage.
impl From<Stage> for Retry {
    ghost from_gives = { λ x r. r ≡ retry_of x };

    fn from(s: Stage) -> Retry {
        Retry {
            block: Block(s.block),
            sector: Sector(s.sector),
            first: s.first,
            left: s.left,
            spent: s.spent,
            threshold: s.threshold,
            good: s.good,
            seen: Seen::from(s),
        }
    }
}

// Returns the write or the verify of a stage.
impl From<Stage> for Target {
    ghost from_gives = { λ x r. r ≡ target_of x };

    fn from(s: Stage) -> Target {
        Target {
            block: Block(s.block),
            sector: Sector(s.sector),
            verify: s.first,
        }
    }
}

// Returns the trial of a stage.
impl From<Stage> for Trial {
    ghost from_gives = { λ x r. r ≡ trial_of x };

    fn from(s: Stage) -> Trial {
        Trial {
            block: Block(s.block),
            sector: Sector(s.sector),
            spare: s.spare,
            rereads: s.detail,
            failures: s.spent,
            seen: Seen::from(s),
            last: cause_of(s.remembered % 4),
            before: cause_of(s.remembered / 4 % 4),
            present: cause_of(s.remembered / 16 % 4),
        }
    }
}

// Returns the phase of a stage.
impl From<Stage> for Phase {
    ghost from_gives = { λ x r. r ≡ phase_of x };

    fn from(s: Stage) -> Phase {
        match s.kind {
            0 => Phase::Idle,
            1 => offered(s.detail),
            2 => Phase::Command,
            3 => Phase::Data,
            4 => Phase::Awaiting(Access::Start(s.detail)),
            5 => storing(s),
            6 => Phase::Awaiting(Access::Read(Retry::from(s))),
            7 => Phase::Awaiting(Access::Write(Target::from(s))),
            8 => Phase::Awaiting(Access::Verify(Target::from(s))),
            9 => Phase::Awaiting(Access::TrialWrite(Trial::from(s))),
            10 => Phase::Awaiting(Access::TrialRead(Trial::from(s))),
            _ => damaged(),
        }
    }
}

// Returns the words of a state. The casts narrow, or go to usize, and std has no From for that.
#[tactic(auto, using(crate::proofs::Bytes::bit_is, crate::proofs::Bytes::pair_is), unfolding(crate::specs::Packing::pack_state))]
pub fn pack_state(l: State) -> [u16; 23]
    ensures { result ≡ pack_state l }
{
    let m = l.marks;
    let c = l.command;
    let s = Stage::from(l.phase);
    [
        u16::from(m.known),
        u16::from(m.changed),
        u16::from(m.latch),
        u16::from(m.fresh),
        u16::from_le_bytes([s.kind, s.detail]),
        word(s.sector as usize),
        s.block,
        u16::from_le_bytes([s.left, s.errors]),
        u16::from_le_bytes([s.spent, s.threshold]),
        u16::from(s.first),
        u16::from(s.good),
        u16::from(s.spare),
        u16::from(s.crc),
        u16::from(s.timeout),
        word(l.count),
        word(l.fed),
        u16::from_le_bytes([c[0], c[1]]),
        u16::from_le_bytes([c[2], c[3]]),
        u16::from_le_bytes([c[4], c[5]]),
        s.remembered,
        (l.run % 65536) as u16,
        (l.run / 65536) as u16,
        u16::from(m.moved),
    ]
}

// Returns the marks of a record's words.
fn marks_at(w: &Words) -> Marks
    ensures { result ≡ marks_at w.now }
{
    Marks {
        known: w[0] != 0,
        changed: w[1] != 0,
        moved: w[22] != 0,
        latch: w[2] != 0,
        fresh: w[3] != 0,
    }
}

// Returns the stage of a record's words.
fn stage_at(w: &Words) -> Stage
    ensures { result ≡ stage_at w.now }
{
    let [kind, detail] = w[4].to_le_bytes();
    let [left, errors] = w[7].to_le_bytes();
    let [spent, threshold] = w[8].to_le_bytes();
    Stage {
        kind,
        detail,
        sector: u32::from(w[5]),
        block: w[6],
        remembered: w[19],
        left,
        errors,
        spent,
        threshold,
        first: w[9] != 0,
        good: w[10] != 0,
        spare: w[11] != 0,
        crc: w[12] != 0,
        timeout: w[13] != 0,
    }
}

// Returns the command bytes of a record's words.
fn command_at(w: &Words) -> [u8; 6]
    ensures { result ≡ command_at w.now }
{
    let [a, b] = w[16].to_le_bytes();
    let [c, d] = w[17].to_le_bytes();
    let [e, f] = w[18].to_le_bytes();
    [a, b, c, d, e, f]
}

// Returns the state of a record's words.
#[tactic(auto, unfolding(crate::specs::Packing::state_at))]
pub fn state_at(w: &Words) -> State
    ensures { result ≡ state_at w.now }
{
    State {
        phase: Phase::from(stage_at(w)),
        marks: marks_at(w),
        command: command_at(w),
        count: usize::from(w[14]),
        fed: usize::from(w[15]),
        run: u32::from(w[20]) + 65536 * u32::from(w[21]),
    }
}

// Returns the places of the spare list.
pub fn spares(w: &Words) -> &[u16]
    ensures { (result.now ≡ spares_at w.now) × (length result.now ≡ 32) }
{
    &w[25..57]
}

// Returns the places of the bad list.
pub fn bads(w: &Words) -> &[u16]
    ensures { (result.now ≡ bads_at w.now) × (length result.now ≡ 100) }
{
    &w[57..157]
}

// Returns the causes of the spare entries, at the entries' places.
pub fn causes(w: &Words) -> &[u16]
    ensures { (result.now ≡ causes_at w.now) × (length result.now ≡ 32) }
{
    &w[157..189]
}

// Returns the table of a record's words.
#[tactic(auto, using(buffer::proofs::Over::over_all), unfolding(crate::specs::Packing::table_at))]
pub fn table_at(w: &Words) -> Table
    ensures { result ≡ table_at w.now }
{
    let mut t = Table {
        spares: [0; 32],
        bads: [0; 100],
        nspares: usize::from(w[23]),
        nbads: usize::from(w[24]),
    };
    buffer::put(&mut t.spares, 0, spares(w));
    buffer::put(&mut t.bads, 0, bads(w));
    t
}

// Returns the causes of a record's words, as an array.
#[tactic(auto, using(buffer::proofs::Over::over_all))]
pub fn causes_at(w: &Words) -> [u16; 32]
    ensures { result ≡ causes_at w.now }
{
    let mut c = [0; 32];
    buffer::put(&mut c, 0, causes(w));
    c
}

// Writes a state into a record's words.
#[tactic(auto, using(crate::proofs::Laid::state_laid))]
pub fn put_state(w: &mut Words, l: State)
    ensures { w.new ≡ pack_state l ++ drop 23 w.old }
{
    buffer::put(w, 0, &pack_state(l));
}

// Writes a table and the causes of its spare entries into a record's words.
#[tactic(auto, using(crate::proofs::Laid::table_laid), unfolding(crate::specs::Packing::pack_table))]
pub fn put_table(w: &mut Words, t: Table, causes: [u16; 32])
    ensures { w.new ≡ take 23 w.old ++ (pack_table t ++ causes) }
{
    w[23] = word(t.nspares);
    w[24] = word(t.nbads);
    buffer::put(w, 25, &t.spares);
    buffer::put(w, 57, &t.bads);
    buffer::put(w, 157, &causes);
}
