// A read command's reads (document 01, "Read"): which bytes stay in the data part, and what ends the
// command.
#![tactic(auto)]

ghost use Rattle.std.specs.Prelude.{◌≡◌, true};
ghost use Rattle.drive.specs.Records.{retry_ok};
ghost use Rattle.drive.specs.Retries.{after_read};
ghost use Rattle.drive.specs.declared.Outcome.TheVariants as outcome;
ghost use Rattle.drive.specs.Access.{kept_part, lost, settled, reads};
ghost use Rattle.table.specs.Tables.{empty_table};

use drive::{Access, Answer, Change, Ending, Leaves, Outcome, Part, Phase, Retry, State, Turn};
use table::Lent;

mod retries;

// Returns what becomes of the data part: the first good bytes stay; until then those of answer 1 fill it.
#[tactic(auto, unfolding(drive::specs::Access::kept_part))]
fn kept_part(r: Retry, a: u8) -> Part
    ensures { result ≡ kept_part r a }
{
    if (a <= 1) & !r.good {
        Part::Filled(0)
    } else {
        Part::Kept
    }
}

// Asks for the same sector again, whatever the table.
#[tactic(auto, unfolding(drive::specs::Access::reads))]
fn again(l: State, r: Retry, p: Part) -> Turn
    ensures { result ≡ reads (outcome.Again r) l empty_table p }
{
    Turn {
        state: records::in_phase(l, Phase::Awaiting(Access::Read(r))),
        answer: Answer::Read(r.sector),
        change: Change::Keep,
        leaves: Leaves {
            status: None,
            part: p,
        },
    }
}

// Ends a read that was good after errors, or begins the trial of its sector.
#[tactic(auto, unfolding(drive::specs::Access::settled))]
fn settle(l: State, r: Retry, p: Part) -> Turn
    ensures { result ≡ settled l r p }
{
    if r.seen.errors < r.threshold {
        return records::finish(l, Change::Keep, Ending::Good, r.seen, p);
    }
    if l.marks.latch {
        return records::finish(l, Change::Keep, Ending::Latched, r.seen, p);
    }
    let trial = records::on_present(r.block, r.sector, r.seen);
    sparing::begin(l, Change::Keep, trial, p)
}

// Ends a read that never was good: the block enters the bad list, unless it is there or the list is full.
#[tactic(auto, unfolding(drive::specs::Access::lost))]
fn lose(l: State, t: &Lent, r: Retry, p: Part) -> Turn
    ensures { result ≡ lost l t.now r p }
{
    let (change, ending) = if t.lists_bad(r.block) {
        (Change::Keep, Ending::Failed)
    } else if t.nbads < 100 {
        (Change::Enter(r.block), Ending::Failed)
    } else {
        (Change::Keep, Ending::BadFull)
    };
    records::finish(l, change, ending, r.seen, p)
}

// Returns what answer a to the awaited read leads to.
#[tactic(auto, unfolding(drive::specs::Access::reads))]
pub fn read(l: State, t: &Lent, r: Retry, a: u8) -> Turn
    requires { retry_ok r ≡ true }
    ensures { result ≡ reads (after_read r a) l t.now (kept_part r a) }
{
    let p = kept_part(r, a);
    match retries::after_read(r, a) {
        Outcome::Done(r) => records::finish(l, Change::Keep, Ending::Good, r.seen, p),
        Outcome::Again(r) => again(l, r, p),
        Outcome::Settle(r) => settle(l, r, p),
        Outcome::Lost(r) => lose(l, t, r, p),
        Outcome::Stop(r) => records::finish(l, Change::Keep, Ending::Latched, r.seen, p),
    }
}
