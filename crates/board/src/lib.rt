// The seven calls over a record that is lent, for a board's loop: each takes the record out, calls the
// controller by value, and puts the record back.
#![tactic(auto)]

ghost use Rattle.std.specs.Prelude.{◌≡◌};
ghost use Rattle.drive.specs.Calls.{start_of, raise_of, lower_of, feed_of, surface_of, reset_of, image_out_of};
ghost use Rattle.board.specs.Lent.{Leaves, Lends};

use calls::Controller;
use drive::{Answer, Drive, Step};

// Takes the record out, makes a call with it and the buffer, and puts back what the call hands back.
fn lend<F: FnOnce(Controller, &mut [u8]) -> Step>(
    drive: &mut Drive,
    buf: &mut [u8],
    call: F,
) -> Answer
    requires { F.IsAlwaysCallable call }
    ensures { Lends F.FnOnce call drive.old buf.old result drive.new buf.new }
{
    let step = call(Controller(*drive), buf);
    *drive = step.drive;
    step.answer
}

// Makes the record anew, zeroes the buffer and asks for the table.
pub fn start(drive: &mut Drive, buf: &mut [u8]) -> Answer
    ensures { Leaves (start_of drive.old buf.old) result drive.new buf.new }
{
    lend(drive, buf, |c, buf| c.start(buf))
}

// Raises the CMD line.
pub fn raise(drive: &mut Drive, buf: &mut [u8]) -> Answer
    ensures { Leaves (raise_of drive.old buf.old) result drive.new buf.new }
{
    lend(drive, buf, |c, buf| c.raise(buf))
}

// Lowers the CMD line with byte b.
pub fn lower(drive: &mut Drive, buf: &mut [u8], b: u8) -> Answer
    ensures { Leaves (lower_of drive.old buf.old b) result drive.new buf.new }
{
    lend(drive, buf, |c, buf| c.lower(buf, b))
}

// Feeds bytes.
pub fn feed(drive: &mut Drive, buf: &mut [u8], bytes: &[u8]) -> Answer
    ensures { Leaves (feed_of drive.old buf.old bytes.now) result drive.new buf.new }
{
    lend(drive, buf, |c, buf| c.feed(buf, bytes))
}

// Takes the surface's answer and the bytes that came with it.
pub fn surface(drive: &mut Drive, buf: &mut [u8], a: u8, bytes: &[u8]) -> Answer
    ensures { Leaves (surface_of drive.old buf.old a bytes.now) result drive.new buf.new }
{
    lend(drive, buf, |c, buf| c.surface(buf, a, bytes))
}

// Resets the drive.
pub fn reset(drive: &mut Drive, buf: &mut [u8]) -> Answer
    ensures { Leaves (reset_of drive.old buf.old) result drive.new buf.new }
{
    lend(drive, buf, |c, buf| c.reset(buf))
}

// Builds the table's image, form B, in the 532 bytes lent. The record stays as it is.
pub fn image(drive: &mut Drive, buf: &mut [u8]) -> Answer
    ensures { Leaves (image_out_of drive.old buf.old) result drive.new buf.new }
{
    lend(drive, buf, |c, buf| c.image(buf))
}
