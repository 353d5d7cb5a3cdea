// Acts on a command (document 01, "Acting on a command", with requests 3, 4 and 7 of document 02).
#![tactic(auto)]

ghost use Rattle.std.specs.Prelude.{◌≡◌, ◌≤◌, ◌<◌, length};
ghost use Rattle.drive.specs.Words.{block_of};
ghost use Rattle.drive.specs.Results.{clean, finish};
ghost use Rattle.drive.specs.Handshake.{first_read, first_write, first_trial, writes, asks_buffer, asks_table, asks_health, no_number, health, overruns, acted};
ghost use Rattle.drive.specs.declared.Change.TheVariants as change;
ghost use Rattle.drive.specs.declared.Part.TheVariants as part;
ghost use Rattle.table.specs.Tables.{spare_list};

use drive::{
    Access, Answer, Change, Ending, Four, Kind, Marks, Order, Part, Phase, Retry, State, Target,
    Turn,
};
use geometry::Block;
use table::Bounded;

// Says whether a number is the buffer's. This and the next three are tests of their own and no enum of numbers, since `acted` asks
// for them between its other rules.
fn asks_buffer(v: u32) -> bool
    ensures { result ≡ asks_buffer v }
{
    v == 0xFFFFFE
}

// Says whether a number is the table's.
fn asks_table(v: u32) -> bool
    ensures { result ≡ asks_table v }
{
    v == 0xFFFFFF
}

// Says whether a number is the health block's.
fn asks_health(v: u32) -> bool
    ensures { result ≡ asks_health v }
{
    v == 0xFFFFFD
}

// Says whether a number is nothing's, in a command of this kind.
#[tactic(auto, unfolding(drive::specs::Handshake::no_number))]
fn no_number(k: Kind, v: u32) -> bool
    ensures { result ≡ no_number k v }
{
    !(v < 9728) & !asks_buffer(v) & !((asks_table(v) | asks_health(v)) & records::is_read(k))
}

// Returns the block of an order's number. The bound stands in the clauses, since the definitions take the order: `first_read`,
// `first_write`, `first_trial`, `writes`. The casts here and in `health` narrow, and std has no From for that.
fn block_of(o: Order) -> Block
    requires { o.number < 9728 }
    ensures { result ≡ block_of o }
{
    Block(o.number as u16)
}

// Returns the figures of the health block.
#[tactic(auto, unfolding(drive::specs::Handshake::health))]
fn health(t: &Bounded, marks: Marks) -> Four
    ensures { result ≡ health t.now.nspares t.now.nbads marks }
{
    let lists = t.lent;
    let unused = table::unused(lists.nspares);
    let latch = records::bit(marks.latch, 1);
    let unstored = records::bit(marks.changed, 1);
    Four(unused as u8, lists.nbads as u8, latch, unstored)
}

// Ends a command for a block that fails without an access.
fn fail(l: State, e: Ending) -> Turn
    ensures { result ≡ finish l change.Keep e clean part.Kept }
{
    records::finish(l, Change::Keep, e, records::clean(), Part::Kept)
}

// Ends a command that was fed too much.
#[tactic(auto, unfolding(drive::specs::Handshake::overruns))]
fn overrun(o: Order, l: State) -> Turn
    ensures { result ≡ overruns o l }
{
    if o.number < 9728 {
        return fail(l, Ending::Overrun);
    }
    records::ends(l, Ending::Overrun, Part::Kept)
}

// Asks for a read command's first read.
fn first_read(o: Order, l: State, t: &Bounded) -> Turn
    requires { o.number < 9728 }
    ensures { result ≡ first_read o l (spare_list t.now) }
{
    let block = block_of(o);
    let sector = t.lent.sector_of(block);
    let r = Retry {
        block,
        sector,
        first: true,
        left: o.retries,
        spent: 0,
        threshold: o.threshold,
        good: false,
        seen: records::clean(),
    };
    records::say(
        records::in_phase(l, Phase::Awaiting(Access::Read(r))),
        Answer::Read(sector),
    )
}

// Asks for a write command's write; a write/verify reads it back.
fn first_write(o: Order, l: State, t: &Bounded) -> Turn
    requires { o.number < 9728 }
    ensures { result ≡ first_write o l (spare_list t.now) }
{
    let block = block_of(o);
    let sector = t.lent.sector_of(block);
    let w = Target {
        block,
        sector,
        verify: !records::is_write(o.kind),
    };
    records::say(
        records::in_phase(l, Phase::Awaiting(Access::Write(w))),
        Answer::Write(sector),
    )
}

// Begins with the trial of the present sector.
fn first_trial(o: Order, l: State, t: &Bounded) -> Turn
    requires { o.number < 9728 }
    ensures { result ≡ first_trial o l (spare_list t.now) }
{
    let b = block_of(o);
    let r = records::on_present(b, t.lent.sector_of(b), records::clean());
    sparing::begin(l, Change::Keep, r, Part::Kept)
}

// Writes a block: any write to a listed bad block begins with a trial.
#[tactic(auto, unfolding(drive::specs::Handshake::writes))]
fn write(o: Order, l: State, t: &Bounded) -> Turn
    requires { o.number < 9728 }
    ensures { result ≡ writes o l t.now }
{
    if t.lent.lists_bad(block_of(o)) {
        return first_trial(o, l, t);
    }
    first_write(o, l, t)
}

// Acts on a command, by the first rule that applies. Here and in every rule state and lists are two parameters, since a rule
// changes the one and never the other.
#[tactic(auto, unfolding(drive::specs::Handshake::acted))]
pub fn act(o: Order, l: State, t: &Bounded) -> Turn
    ensures { result ≡ acted o l t.now }
{
    let v = o.number;
    let reads = records::is_read(o.kind);
    if 532 < l.fed {
        return overrun(o, l);
    }
    if no_number(o.kind, v) {
        return records::ends(l, Ending::NoNumber, Part::Kept);
    }
    if asks_buffer(v) {
        return records::ends(l, Ending::Good, Part::Kept);
    }
    if !l.marks.known {
        return records::ends(l, Ending::NoTable(!reads), Part::Kept);
    }
    if asks_table(v) {
        return records::ends(l, Ending::Good, Part::Image);
    }
    if asks_health(v) {
        return records::ends(l, Ending::Good, Part::Figures(health(t, l.marks)));
    }
    if reads {
        return first_read(o, l, t);
    }
    if l.marks.latch {
        return fail(l, Ending::Latched);
    }
    write(o, l, t)
}
