// Form A: a header, two counts, each list with a mark after it, zeros.
ghost use Rattle.std.specs.Prelude.{◌≡◌, ◌+◌, ◌*◌, ◌≤◌, length};
ghost use Rattle.buffer.specs.Runs.{over};
ghost use Rattle.image.specs.FormA.{list_part, head, form_a, has_header, mark_at, zeros_from, framed_a, layout_a};
ghost use Rattle.image.specs.Images.{written_a, read_a};

use crate::entries;
use buffer::{all_are, fill, put, same_bytes};
use image::{Fault, Image, Layout};

// Holds the bytes before the counts.
const HEADER: [u8; 24] = *b"PROFILE      \x00\x00\x00\x03\x90\x00\x26\x00\x02\x14\x20";

// Writes the entries of a list from place `at` on, and the mark after them.
fn put_list(out: &mut [u8], at: usize, list: &[u16])
    requires { (at + 3 * length list.now + 3 ≤ length out.old) × (length list.now ≤ 100) }
    ensures { out.new ≡ over at (list_part list.now) out.old }
{
    let _ = entries::put_entries(out, at, list);
    fill(out, at + 3 * list.len(), 3, 255);
}

// Writes the header and the counts of n and m.
fn put_head(out: &mut [u8], n: usize, m: usize)
    requires { (26 ≤ length out.old) × (n ≤ 32) × (m ≤ 100) }
    ensures { out.new ≡ over 0 (head n m) out.old }
{
    put(out, 0, &HEADER);
    put(out, 24, &[n as u8, m as u8]);
}

// Writes the image of two lists.
fn build(spares: &[u16], bads: &[u16], out: &mut [u8])
    requires { (length out.old ≡ 532) × (length spares.now ≤ 32) × (length bads.now ≤ 100) }
    ensures { out.new ≡ form_a spares.now bads.now }
{
    let n = spares.len();
    let m = bads.len();
    let a = 3 * n;
    let b = 3 * m;
    put_head(out, n, m);
    put_list(out, 26, spares);
    put_list(out, 29 + a, bads);
    fill(out, 32 + a + b, 500 - a - b, 0);
}

// Writes the image of two lists into 532 lent bytes. Into another number of bytes, or of lists too long
// for a table, it writes nothing.
pub fn write(spares: &[u16], bads: &[u16], out: &mut [u8])
    ensures { out.new ≡ written_a spares.now bads.now out.old }
{
    if entries::writable(spares, bads, out) {
        build(spares, bads, out);
    }
}

// Says whether s begins with the header.
fn has_header(s: &[u8]) -> bool
    requires { 24 ≤ length s.now }
    ensures { result ≡ has_header s.now }
{
    same_bytes(&s[..24], &HEADER)
}

// Says whether FF FF FF is at place k.
fn is_mark(s: &[u8], k: usize) -> bool
    requires { k + 3 ≤ length s.now }
    ensures { result ≡ mark_at s.now k }
{
    all_are(&s[k..k + 3], 255)
}

// Says whether all bytes from place k on are zeros.
fn ends_in_zeros(s: &[u8], k: usize) -> bool
    requires { k ≤ length s.now }
    ensures { result ≡ zeros_from s.now k }
{
    all_are(&s[k..], 0)
}

// Says whether all but counts and entries is as an image with counts of n and m has it.
fn is_framed(s: &[u8], n: usize, m: usize) -> bool
    requires { (length s.now ≡ 532) × (n ≤ 32) × (m ≤ 100) }
    ensures { result ≡ framed_a s.now n m }
{
    let a = 3 * n;
    let b = 3 * m;
    has_header(s) & is_mark(s, 26 + a) & is_mark(s, 29 + a + b) & ends_in_zeros(s, 32 + a + b)
}

// Returns where the lists are.
fn layout(s: &[u8]) -> Layout
    requires { length s.now ≡ 532 }
    ensures { result ≡ layout_a s.now }
{
    let n = usize::from(s[24]);
    let m = usize::from(s[25]);
    Layout {
        nspares: n,
        nbads: m,
        spares: 26,
        width: 3,
        bads: 29 + 3 * n,
    }
}

// Returns the table of an image, with no run number and no causes.
pub fn read(s: &[u8]) -> Result<Image, Fault>
    requires { length s.now ≡ 532 }
    ensures { result ≡ read_a s.now }
{
    let a = layout(s);
    if !entries::counts_fit(a) || !is_framed(s, a.nspares, a.nbads) {
        return Err(Fault::Form);
    }
    let Some(table) = entries::load_table(s, a) else {
        return Err(Fault::Form);
    };
    Ok(Image {
        table,
        causes: [0; 32],
        run: 0,
    })
}
