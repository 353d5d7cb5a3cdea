// Exports the seven calls over a record's words, which are lent, convert, and the parity of a byte, to callers in C and Rust.
// include/bumivondra.h says the same in C, with what a caller owes. specs/ says demand 3 of every list of these calls. Each call
// with a rule is two lines: the words are lent for reading, then written by `keep` or `settle`.
#![tactic(auto)]

ghost use Rattle.std.specs.Prelude.{◌≡◌};
ghost use Rattle.drive.specs.Calls as call;
ghost use Rattle.parity.specs.Bits.{parity_of};
ghost use Rattle.crossing.specs.Crossing.{shown, call_shown, answer_shown, start_shown, image_shown, shown_bytes, convert_shown};

use crossing::Reply;
use packed::Words;

#[unsafe(no_mangle)]
pub extern "C" fn bv_start(drive: &mut Words, buf: &mut [u8]) -> Reply
    ensures { shown result drive.new buf.new ≡ start_shown drive.old buf.old }
{
    crossing::start(drive, buf)
}

#[unsafe(no_mangle)]
pub extern "C" fn bv_raise(drive: &mut Words, buf: &mut [u8]) -> Reply
    ensures { shown result drive.new buf.new ≡ call_shown call.raise drive.old buf.old }
{
    let turn = crossing::raise(drive, buf);
    crossing::keep(drive, turn)
}

#[unsafe(no_mangle)]
pub extern "C" fn bv_lower(drive: &mut Words, buf: &mut [u8], byte: u8) -> Reply
    ensures { shown result drive.new buf.new ≡ call_shown (call.lower byte) drive.old buf.old }
{
    let turn = crossing::lower(drive, buf, byte);
    crossing::keep(drive, turn)
}

#[unsafe(no_mangle)]
pub extern "C" fn bv_feed(drive: &mut Words, buf: &mut [u8], bytes: &[u8]) -> Reply
    ensures { shown result drive.new buf.new ≡ call_shown (call.feed bytes.now) drive.old buf.old }
{
    let turn = crossing::feed(drive, buf, bytes);
    crossing::keep(drive, turn)
}

#[unsafe(no_mangle)]
pub extern "C" fn bv_surface(drive: &mut Words, buf: &mut [u8], a: u8, bytes: &[u8]) -> Reply
    ensures { shown result drive.new buf.new ≡ answer_shown a bytes.now drive.old buf.old }
{
    let turn = crossing::surface(drive, buf, a, bytes);
    crossing::settle(drive, turn, bytes)
}

#[unsafe(no_mangle)]
pub extern "C" fn bv_reset(drive: &mut Words, buf: &mut [u8]) -> Reply
    ensures { shown result drive.new buf.new ≡ call_shown call.reset drive.old buf.old }
{
    let turn = crossing::reset(drive, buf);
    crossing::keep(drive, turn)
}

#[unsafe(no_mangle)]
pub extern "C" fn bv_image(drive: &Words, buf: &mut [u8]) -> Reply
    ensures { shown result drive.now buf.new ≡ image_shown drive.now buf.old }
{
    crossing::image(drive, buf)
}

#[unsafe(no_mangle)]
pub extern "C" fn bv_convert(from: &[u8], to: &mut [u8]) -> Reply
    ensures { shown_bytes result to.new ≡ convert_shown from.now to.old }
{
    crossing::convert(from, to)
}

#[unsafe(no_mangle)]
pub extern "C" fn bv_parity(v: u8) -> u8
    ensures { result ≡ parity_of v }
{
    parity::parity(v)
}
