// The host's calls (document 01, "Calls"): raise, lower, feed and reset.
#![tactic(auto)]

ghost use Rattle.std.specs.Prelude.{◌≡◌, ◌≤◌};
ghost use Rattle.drive.specs.Words.{order_of};
ghost use Rattle.drive.specs.Handshake.{offer_for, kept_bytes, offers_act, raised, acted, goes_on, broken_off, lowered, fed_command, fed_data, fed_to, at_rest, rested};
ghost use Rattle.drive.specs.declared.Phase.TheVariants as phase;

use drive::{Answer, Change, Four, Kind, Leaves, Marks, Offer, Part, Phase, Refusal, State, Turn};
use table::Bounded;

// Returns the offer for a command of n bytes.
#[tactic(auto, unfolding(drive::specs::Handshake::offer_for))]
fn offer_for(k: Kind, n: usize) -> Offer
    ensures { result ≡ offer_for k n }
{
    match k {
        Kind::Read if 6 <= n => Offer::Read,
        Kind::Write if 4 <= n => Offer::Write,
        Kind::Verify if 4 <= n => Offer::Verify,
        _ => Offer::Command,
    }
}

// Returns how many command bytes are kept with an offer: 01 drops them.
fn kept_bytes(o: Offer, n: usize) -> usize
    ensures { result ≡ kept_bytes o n }
{
    match o {
        Offer::Command => 0,
        Offer::Read | Offer::Write | Offer::Verify | Offer::Act => n,
    }
}

// Makes the offer for the command that was fed.
#[tactic(auto, unfolding(drive::specs::Handshake::raised))]
fn raise_command(l: State) -> Turn
    ensures { result ≡ raised phase.Command l }
{
    let o = offer_for(records::order_of(l.command).kind, l.count);
    records::offer(l, o, kept_bytes(o, l.count))
}

// Offers 06, and zeroes what was not fed of the data part.
fn raise_data(l: State) -> Turn
    ensures { result ≡ offers_act l }
{
    Turn {
        state: records::in_phase(l, Phase::Offered(Offer::Act)),
        answer: Answer::Offer(Offer::Act),
        change: Change::Keep,
        leaves: Leaves {
            status: None,
            part: Part::Zeroed(l.fed),
        },
    }
}

// Raises the CMD line.
#[tactic(auto, unfolding(drive::specs::Handshake::raised))]
pub fn raise(l: State) -> Turn
    ensures { result ≡ raised l.phase l }
{
    match l.phase {
        Phase::Idle => records::offer(l, Offer::Command, 0),
        Phase::Command => raise_command(l),
        Phase::Data => raise_data(l),
        Phase::Offered(_) | Phase::Awaiting(_) => records::refuse(l, Refusal::Place),
    }
}

// Acts on the command that was fed.
fn act(l: State, t: &Bounded) -> Turn
    ensures { result ≡ acted (order_of l.command) l t.now }
{
    acting::act(records::order_of(l.command), l, t)
}

// Goes on with an offer that the host accepted.
#[tactic(auto, unfolding(drive::specs::Handshake::goes_on))]
fn go_on(o: Offer, l: State, t: &Bounded) -> Turn
    ensures { result ≡ goes_on o l t.now }
{
    match o {
        Offer::Command => records::say(records::in_phase(l, Phase::Command), Answer::Wait),
        Offer::Write | Offer::Verify => {
            records::say(records::in_phase(l, Phase::Data), Answer::Wait)
        }
        Offer::Read | Offer::Act => act(l, t),
    }
}

// Breaks the handshake off: idle and finished, with status 80 00 00 00.
fn break_off(l: State) -> Turn
    ensures { result ≡ broken_off l }
{
    Turn {
        state: records::in_phase(l, Phase::Idle),
        answer: Answer::Finished,
        change: Change::Keep,
        leaves: Leaves {
            status: Some(Four(0x80, 0x00, 0x00, 0x00)),
            part: Part::Kept,
        },
    }
}

// Takes the host's byte after an offer.
#[tactic(auto, unfolding(drive::specs::Handshake::lowered))]
fn take_byte(o: Offer, l: State, t: &Bounded, b: u8) -> Turn
    ensures { result ≡ lowered (phase.Offered o) l t.now b }
{
    if b == 0x55 {
        return go_on(o, l, t);
    }
    break_off(l)
}

// Lowers the CMD line with byte b.
#[tactic(auto, unfolding(drive::specs::Handshake::lowered))]
pub fn lower(l: State, t: &Bounded, b: u8) -> Turn
    ensures { result ≡ lowered l.phase l t.now b }
{
    match l.phase {
        Phase::Offered(o) => take_byte(o, l, t, b),
        Phase::Idle | Phase::Command | Phase::Data | Phase::Awaiting(_) => {
            records::refuse(l, Refusal::Place)
        }
    }
}

// Takes command bytes, as far as six go.
fn feed_command(l: State, bytes: &[u8]) -> Turn
    requires { l.count ≤ 6 }
    ensures { result ≡ fed_command l bytes.now }
{
    let kept = buffer::cut(bytes, 6 - l.count);
    let mut command = l.command;
    buffer::put(&mut command, l.count, kept);
    let next = State {
        phase: Phase::Command,
        command,
        count: l.count + kept.len(),
        ..l
    };
    records::say(next, Answer::Wait)
}

// Takes n data bytes, and counts them up to 533.
fn feed_data(l: State, n: usize) -> Turn
    requires { l.fed ≤ 533 }
    ensures { result ≡ fed_data l n }
{
    Turn {
        state: State {
            phase: Phase::Data,
            fed: l.fed + (533 - l.fed).min(n),
            ..l
        },
        answer: Answer::Wait,
        change: Change::Keep,
        leaves: Leaves {
            status: None,
            part: Part::Filled(l.fed),
        },
    }
}

// Takes the bytes that the host feeds.
#[tactic(auto, unfolding(drive::specs::Handshake::fed_to))]
pub fn feed(l: State, bytes: &[u8]) -> Turn
    requires { (l.count ≤ 6) × (l.fed ≤ 533) }
    ensures { result ≡ fed_to l.phase l bytes.now }
{
    match l.phase {
        Phase::Command => feed_command(l, bytes),
        Phase::Data => feed_data(l, bytes.len()),
        Phase::Idle | Phase::Offered(_) | Phase::Awaiting(_) => records::refuse(l, Refusal::Place),
    }
}

// Goes to rest: idle, and status 3 bit 7 is due again.
fn rest(l: State) -> Turn
    ensures { result ≡ at_rest l }
{
    let due = Marks {
        fresh: true,
        ..l.marks
    };
    records::say(records::with_marks(l, due, Phase::Idle), Answer::Wait)
}

// Resets a drive that is idle or in the handshake.
#[tactic(auto, unfolding(drive::specs::Handshake::rested))]
pub fn reset(l: State) -> Turn
    ensures { result ≡ rested l.phase l }
{
    match l.phase {
        Phase::Idle | Phase::Offered(_) | Phase::Command | Phase::Data => rest(l),
        Phase::Awaiting(_) => records::refuse(l, Refusal::Place),
    }
}
