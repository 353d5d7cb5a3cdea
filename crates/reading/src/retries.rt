// The numbers of a read command: the rereads left, what further reads have cost, and E.
ghost use Rattle.std.specs.Prelude.{◌≡◌, true};
ghost use Rattle.drive.specs.Records.{retry_ok};
ghost use Rattle.drive.specs.Retries.{is_reread, passed, failed, goes_on_reading, after_read};

use drive::{Outcome, Retry, Seen};

// Says whether the awaited read is one of the R rereads.
fn is_reread(r: Retry) -> bool
    ensures { result ≡ is_reread r }
{
    !r.first & (0 < r.left)
}

// Returns the numbers after a good read that was not the first.
fn pass(r: Retry) -> Retry
    ensures { result ≡ passed r }
{
    Retry {
        left: r.left.saturating_sub(1),
        good: true,
        ..r
    }
}

// Returns the numbers after a read that failed with answer a.
// What code 1 says of a retry is no invariant of a type: a failure may bring spent to 98, which it refuses.
#[tactic(auto, unfolding(drive::specs::Retries::failed, drive::specs::Records::retry_ok))]
fn fail(r: Retry, a: u8) -> Retry
    requires { retry_ok r ≡ true }
    ensures { result ≡ failed r a }
{
    let reread = u8::from(is_reread(r));
    let cost = if r.first | (0 < r.left) {
        0
    } else if a == 1 {
        1
    } else {
        9
    };
    Retry {
        first: false,
        left: r.left - reread,
        spent: r.spent + cost,
        seen: Seen {
            errors: r.seen.errors + reread,
            ..records::met(a, r.seen)
        },
        ..r
    }
}

// Returns what comes after a read that was not a good first one: the R rereads; then a good one settles
// it, else further reads until 90 is spent.
#[tactic(auto, unfolding(drive::specs::Retries::goes_on_reading))]
fn go_on_reading(r: Retry) -> Outcome
    ensures { result ≡ goes_on_reading r }
{
    if 0 < r.left {
        Outcome::Again(r)
    } else if r.good {
        Outcome::Settle(r)
    } else if r.spent < 90 {
        Outcome::Again(r)
    } else {
        Outcome::Lost(r)
    }
}

// Returns what answer a to the awaited read leads to.
#[tactic(auto, unfolding(drive::specs::Retries::after_read))]
pub fn after_read(r: Retry, a: u8) -> Outcome
    requires { retry_ok r ≡ true }
    ensures { result ≡ after_read r a }
{
    match a {
        0 if r.first => Outcome::Done(r),
        0 => go_on_reading(pass(r)),
        3 => Outcome::Stop(r),
        _ => go_on_reading(fail(r, a)),
    }
}
