// Prints the parity table: the entries from 0 to 255, one digit a line.
#![tactic(auto)]

ghost use Rattle.std.specs.Prelude.{◌≡◌, ◌+◌, ◌*◌, ◌≤◌, length};
ghost use Rattle.buffer.specs.Runs.{over};
ghost use Rattle.print_parity.specs.Lines.{line, lines};

use std::io;
use std::io::Write;

// Writes the line of entry v where it belongs: behind those of the entries before it.
fn put_line(out: &mut [u8], v: u8)
    requires { 2 * v + 2 ≤ length out.old }
    ensures { out.new ≡ over (2 * v) (line v) out.old }
{
    buffer::put(out, 2 * usize::from(v), &[b'0' + parity::parity(v), b'\n']);
}

// Returns all lines.
#[tactic(auto, using(crate::proofs::Lines::next_line, crate::proofs::Lines::no_line, crate::proofs::Lines::whole))]
fn all_lines() -> [u8; 512]
    ensures { result ≡ lines 256 }
{
    let mut out = [0; 512];
    for v in 0..=u8::MAX {
        put_line(&mut out, v);
    }
    out
}

fn main(rt: HostRuntime) -> io::Result<()> {
    rt.stdout().write_all(&all_lines())
}
