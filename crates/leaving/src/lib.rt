// What a turn leaves in the buffer. No other crate writes block data. The buffer stays a slice, with its 536 bytes in the clauses:
// a caller has it as a slice, and what `<&mut [u8; 536]>::try_from` leaves in one was tried and isn't proved.
#![tactic(auto)]

ghost use Rattle.std.specs.Prelude.{◌≡◌, ◌++◌, ◌+◌, ◌-◌, ◌≤◌, length, take, replicate};
ghost use Rattle.buffer.specs.Runs.{over};
ghost use Rattle.image.specs.FormA.{image_a};
ghost use Rattle.image.specs.FormB.{image_b};
ghost use Rattle.drive.specs.Words.{with_data};
ghost use Rattle.drive.specs.Results.{four, part_left, status_left, leave};

use drive::{Four, Leaves, Part};
use table::Bounded;

// Fills the data part with the bytes from place f on, as far as 532 go.
fn fill(buf: &mut [u8], f: usize, bytes: &[u8])
    requires { length buf.old ≡ 536 }
    ensures { buf.new ≡ over (4 + f) (take (532 - f) bytes.now) buf.old }
{
    if 532 <= f {
        return;
    }
    buffer::put(buf, 4 + f, buffer::cut(bytes, 532 - f));
}

// Zeroes the data part from place f on.
fn zero(buf: &mut [u8], f: usize)
    requires { length buf.old ≡ 536 }
    ensures { buf.new ≡ take (4 + f) buf.old ++ replicate (532 - f) 0x00 }
{
    if 532 <= f {
        return;
    }
    buffer::fill(buf, 4 + f, 532 - f, 0);
}

// Builds form A of the table in 532 lent bytes.
pub fn write_table(t: &Bounded, out: &mut [u8])
    requires { length out.old ≡ 532 }
    ensures { out.new ≡ image_a t.now }
{
    codec::form_a::write(t.lent.spare_list(), t.lent.bad_list(), out);
}

// Builds the image that a store writes, form B, in 532 lent bytes. It is no twin of `write_table`: the forms are two formats.
pub fn write_stored(run: u32, t: &Bounded, causes: &[u16], out: &mut [u8])
    requires { (length out.old ≡ 532) × (length t.now.spares ≡ 32) × (length causes.now ≡ 32) }
    ensures { out.new ≡ image_b run t.now causes.now }
{
    let lists = t.lent;
    codec::form_b::write(
        run,
        lists.spare_list(),
        buffer::cut(causes, lists.nspares),
        lists.bad_list(),
        out,
    );
}

// Builds form A of the table in the data part.
fn put_image(t: &Bounded, buf: &mut [u8])
    requires { length buf.old ≡ 536 }
    ensures { buf.new ≡ with_data buf.old (image_a t.now) }
{
    write_table(t, &mut buf[4..]);
}

// Writes four bytes from index at on.
fn put_four(buf: &mut [u8], at: usize, x: Four)
    requires { at + 4 ≤ length buf.old }
    ensures { buf.new ≡ over at (four x) buf.old }
{
    buffer::put(buf, at, &[x.0, x.1, x.2, x.3]);
}

// Writes the figures of the health block into the data part, and zeros after them.
fn put_figures(buf: &mut [u8], x: Four)
    requires { length buf.old ≡ 536 }
    ensures { buf.new ≡ with_data buf.old (four x ++ replicate 528 0x00) }
{
    put_four(buf, 4, x);
    buffer::fill(buf, 8, 528, 0);
}

// Leaves the data part as a turn says.
#[tactic(auto, unfolding(drive::specs::Results::part_left))]
fn put_part(p: Part, t: &Bounded, bytes: &[u8], buf: &mut [u8])
    requires { length buf.old ≡ 536 }
    ensures { buf.new ≡ part_left p t.now bytes.now buf.old }
{
    match p {
        Part::Kept => {}
        Part::Filled(f) => fill(buf, f, bytes),
        Part::Zeroed(f) => zero(buf, f),
        Part::Image => put_image(t, buf),
        Part::Figures(x) => put_figures(buf, x),
    }
}

// Leaves the status as a turn says.
#[tactic(auto, unfolding(drive::specs::Results::status_left, buffer::specs::Runs::over, drive::specs::Words::data_of))]
fn put_status(s: Option<Four>, buf: &mut [u8])
    requires { length buf.old ≡ 536 }
    ensures { buf.new ≡ status_left s buf.old }
{
    if let Some(x) = s {
        put_four(buf, 0, x);
    }
}

// Leaves the buffer as a turn says, given the table's lists and the bytes lent with the call.
pub fn put(x: Leaves, t: &Bounded, bytes: &[u8], buf: &mut [u8])
    requires { length buf.old ≡ 536 }
    ensures { buf.new ≡ leave x t.now bytes.now buf.old }
{
    put_part(x.part, t, bytes, buf);
    put_status(x.status, buf);
}
