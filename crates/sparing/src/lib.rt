// Sector trials (document 02, request 4): one write, then a hundred rereads, of the present sector or of
// the next unused spare.
#![tactic(auto)]

ghost use Rattle.std.specs.Prelude.{◌≡◌, true, ◌≤◌};
ghost use Rattle.drive.specs.declared.Access.TheVariants as access;
ghost use Rattle.drive.specs.declared.Phase.TheVariants as phase;
ghost use Rattle.drive.specs.declared.Answer.TheVariants as answer;
ghost use Rattle.drive.specs.Records.{trial_ok};
ghost use Rattle.drive.specs.Results.{say, in_phase};
ghost use Rattle.drive.specs.Sparing.{begin, on_sector, next_spare, missed, stopped, verified, tried, fault, last_after, counted, judged, checked};

use drive::{Access, Answer, Cause, Change, Ending, Leaves, Part, Phase, State, Trial, Turn};
use geometry::Sector;
use table::Lent;

// Begins a trial: asks for its write.
pub fn begin(l: State, c: Change, r: Trial, p: Part) -> Turn
    ensures { result ≡ begin l c r p }
{
    let marks = records::altered(l.marks, c);
    Turn {
        state: records::with_marks(l, marks, Phase::Awaiting(Access::TrialWrite(r))),
        answer: Answer::Write(r.sector),
        change: c,
        leaves: Leaves {
            status: None,
            part: p,
        },
    }
}

// Returns the trial of a spare's sector, before its first reread, with what the trial r holds of the command.
fn on_spare(at: Sector, r: Trial) -> Trial
    ensures { result ≡ on_sector at r.block r.seen r.before r.present }
{
    Trial {
        sector: at,
        spare: true,
        rereads: 0,
        failures: 0,
        last: Cause::Unknown,
        ..r
    }
}

// Goes to the next unused spare, with n listed by now, or finishes where there is none. r holds what goes along: the block,
// what was met, in before the command's last failure, and in present its last on the block's present sector.
#[tactic(auto, unfolding(drive::specs::Sparing::next_spare))]
pub fn next_spare(n: usize, l: State, c: Change, r: Trial) -> Turn
    ensures { result ≡ next_spare n l c r.block r.seen r.before r.present }
{
    match table::next_spare(n) {
        Some(at) => begin(l, c, on_spare(at, r), Part::Kept),
        None => records::finish(l, c, Ending::NoSpare, r.seen, Part::Kept),
    }
}

// Leaves a sector that failed: a spare dies.
#[tactic(auto, using(crate::proofs::Spares::grown), unfolding(drive::specs::Sparing::missed))]
fn miss(l: State, t: &Lent, r: Trial) -> Turn
    ensures { result ≡ missed l t.now r r.seen r.last }
{
    let failed = Trial {
        before: r.last,
        ..r
    };
    if r.spare {
        let n = t.nspares.saturating_add(1);
        return next_spare(n, l, Change::Kill(r.last), failed);
    }
    let left = Trial {
        present: r.last,
        ..failed
    };
    next_spare(t.nspares, l, Change::Keep, left)
}

// Stops a trial that was answered 3: a spare under trial dies.
#[tactic(auto, unfolding(drive::specs::Sparing::stopped))]
fn stop(l: State, r: Trial) -> Turn
    ensures { result ≡ stopped l r }
{
    let c = if r.spare {
        Change::Kill(Cause::NoSettle)
    } else {
        Change::Keep
    };
    records::finish(l, c, Ending::Latched, r.seen, Part::Kept)
}

// Ends a trial that passed.
#[tactic(auto, unfolding(drive::specs::Sparing::verified))]
fn verify(l: State, t: &Lent, r: Trial) -> Turn
    ensures { result ≡ verified l t.now r }
{
    let (change, ending) = if r.spare {
        (Change::Move(r.block, r.before, r.present), Ending::Moved)
    } else if t.lists_bad(r.block) {
        (Change::Remove(r.block), Ending::Good)
    } else {
        (Change::Keep, Ending::Good)
    };
    records::finish(l, change, ending, r.seen, Part::Kept)
}

// Asks for a reread.
fn reread(l: State, r: Trial) -> Turn
    ensures { result ≡ say (in_phase l (phase.Awaiting (access.TrialRead r))) (answer.Read r.sector) }
{
    records::say(
        records::in_phase(l, Phase::Awaiting(Access::TrialRead(r))),
        Answer::Read(r.sector),
    )
}

// Returns what answer a to a trial's write leads to.
#[tactic(auto, unfolding(drive::specs::Sparing::tried, drive::specs::Sparing::missed))]
pub fn tried(l: State, t: &Lent, r: Trial, a: u8) -> Turn
    ensures { result ≡ tried l t.now r a }
{
    match a {
        0 => reread(l, r),
        3 => stop(l, r),
        _ => {
            let failed = Trial {
                seen: records::met(a, r.seen),
                last: Cause::Timeout,
                ..r
            };
            miss(l, t, failed)
        }
    }
}

// Returns the error that answer a to a verify or a reread counts as, by the number of the answer with which such an error
// comes, 0 for none: met takes it as it takes an answer. equal: it is 0, with the bytes of the data part; other bytes are a
// CRC error.
pub fn fault(a: u8, equal: bool) -> u8
    ensures { result ≡ fault a equal }
{
    if equal {
        return 0;
    }
    if a == 0 { 1 } else { a }
}

// Returns the last failure, after an answer that counts as such an error.
#[tactic(auto, unfolding(drive::specs::Sparing::last_after))]
fn last_after(error: u8, last: Cause) -> Cause
    ensures { result ≡ last_after error last }
{
    match error {
        0 => last,
        2 => Cause::Timeout,
        _ => Cause::Crc,
    }
}

// Returns the trial with one reread more.
fn counted(r: Trial, a: u8, equal: bool) -> Trial
    requires { (r.rereads ≤ 100) × (r.failures ≤ r.rereads) }
    ensures { result ≡ counted r a equal }
{
    let error = fault(a, equal);
    Trial {
        rereads: r.rereads + 1,
        failures: r.failures + u8::from(!equal),
        seen: records::met(error, r.seen),
        last: last_after(error, r.last),
        ..r
    }
}

// Goes on after a reread.
#[tactic(auto, unfolding(drive::specs::Sparing::judged))]
fn judge(l: State, t: &Lent, r: Trial) -> Turn
    ensures { result ≡ judged l t.now r }
{
    if r.rereads < 100 {
        return reread(l, r);
    }
    if r.failures <= 30 {
        return verify(l, t, r);
    }
    miss(l, t, r)
}

// Returns what answer a to a reread leads to. equal: it is 0, with the bytes of the data part.
#[tactic(auto, unfolding(drive::specs::Sparing::checked, drive::specs::Records::trial_ok))]
pub fn checked(l: State, t: &Lent, r: Trial, a: u8, equal: bool) -> Turn
    requires { trial_ok t.now.nspares r ≡ true }
    ensures { result ≡ checked l t.now r a equal }
{
    if a == 3 {
        return stop(l, r);
    }
    judge(l, t, counted(r, a, equal))
}
