// Form B: four bytes of its own, the run number, counts and offsets, each spare entry with its cause, the
// bad entries, zeros, and the sum of all that.
ghost use Rattle.std.specs.Prelude.{◌≡◌, ◌++◌, ◌+◌, ◌*◌, ◌%◌, ◌≤◌, ◌<◌, length, drop, replicate};
ghost use Rattle.buffer.specs.Runs.{over, sum};
ghost use Rattle.image.specs.FormB.{two_bytes, head_b, quad, quads, form_b, two_at, four_at, layout_b, causes_from, causes_in, sum_fits, framed_b};
ghost use Rattle.image.specs.Images.{written_b, read_b};

use crate::entries;
use buffer::{all_are, fill, put, put_summed};
use image::{Fault, Image, Layout};

// Writes the first 16 bytes, for counts of n and m, and returns their sum.
fn put_head(out: &mut [u8], run: u32, n: usize, m: usize) -> u32
    requires { (16 ≤ length out.old) × (n ≤ 32) × (m ≤ 100) }
    ensures { (out.new ≡ over 0 (head_b run n m) out.old) × (result ≡ sum (head_b run n m)) × (result ≤ 4080) }
{
    let [high, upper, lower, low] = run.to_be_bytes();
    let second = 16 + 4 * n;
    let bytes = [
        0xF0,
        0x78,
        0x3C,
        0x1E,
        high,
        upper,
        lower,
        low,
        0,
        n as u8,
        0,
        16,
        0,
        m as u8,
        0,
        second as u8,
    ];
    put_summed(out, 0, &bytes)
}

// Writes a spare entry and its cause from place `at` on, and returns the sum of their bytes.
fn put_spare(out: &mut [u8], at: usize, x: u16, cause: u16) -> u32
    requires { at + 4 ≤ length out.old }
    ensures { (out.new ≡ over at (quad x cause) out.old) × (result ≡ sum (quad x cause)) × (result ≤ 1020) }
{
    let [_, high, middle, low] = entries::widened(x).to_be_bytes();
    put_summed(out, at, &[high, middle, low, (cause % 256) as u8])
}

// Writes the spare entries and their causes from place `at` on, and returns the sum of their bytes.
fn put_spares(out: &mut [u8], at: usize, list: &[u16], causes: &[u16]) -> u32
    requires { (at + 4 * length list.now ≤ length out.old) × (length list.now ≤ 32) × (length causes.now ≡ length list.now) }
    ensures { (out.new ≡ over at (quads list.now causes.now) out.old) × (result ≡ sum (quads list.now causes.now)) × (result ≤ 1020 * length list.now) }
{
    let mut t = 0;
    // The causes by an index: two slices zipped are no form that tools/cross knows.
    for (k, x) in list.iter().enumerate() {
        t += put_spare(out, at + 4 * k, *x, causes[k]);
    }
    t
}

// Writes the sum into the last two bytes.
fn put_sum(out: &mut [u8], t: u32)
    requires { length out.old ≡ 532 }
    ensures { out.new ≡ over 530 (two_bytes (t % 65536)) out.old }
{
    put(out, 530, &((t % 65536) as u16).to_be_bytes());
}

// Writes the image part by part, and adds up the sum on the way.
fn build(run: u32, spares: &[u16], causes: &[u16], bads: &[u16], out: &mut [u8])
    requires { (length out.old ≡ 532) × (length spares.now ≤ 32) × (length causes.now ≡ length spares.now) × (length bads.now ≤ 100) }
    ensures { out.new ≡ form_b run spares.now causes.now bads.now }
{
    let n = spares.len();
    let m = bads.len();
    let a = 4 * n;
    let b = 3 * m;
    let s1 = put_head(out, run, n, m);
    let s2 = put_spares(out, 16, spares, causes);
    let s3 = entries::put_entries(out, 16 + a, bads);
    fill(out, 16 + a + b, 514 - a - b, 0);
    put_sum(out, s1 + s2 + s3);
}

// Writes the image of a run number, two lists and the causes of the first into 532 lent bytes. Into
// another number of bytes, or of lists too long for a table or causes too many or too few, it writes
// nothing.
pub fn write(run: u32, spares: &[u16], causes: &[u16], bads: &[u16], out: &mut [u8])
    ensures { out.new ≡ written_b run spares.now causes.now bads.now out.old }
{
    if entries::writable(spares, bads, out) && causes.len() == spares.len() {
        build(run, spares, causes, bads, out);
    }
}

// Returns the number of the two bytes from place k on.
fn two_at(s: &[u8], k: usize) -> u32
    requires { k + 2 ≤ length s.now }
    ensures { (result ≡ two_at s.now k) × (result < 65536) }
{
    u32::from(u16::from_be_bytes([s[k], s[k + 1]]))
}

// Returns the number of the four bytes from place k on.
fn four_at(s: &[u8], k: usize) -> u32
    requires { k + 4 ≤ length s.now }
    ensures { result ≡ four_at s.now k }
{
    u32::from_be_bytes([s[k], s[k + 1], s[k + 2], s[k + 3]])
}

// Says whether the last two bytes are the sum of all before.
fn sum_fits(s: &[u8]) -> bool
    requires { length s.now ≡ 532 }
    ensures { result ≡ sum_fits s.now }
{
    let t = buffer::sum(&s[..530]);
    two_at(s, 530) == t % 65536
}

// Says whether offsets and zeros are as an image with counts of n and m has them.
fn is_framed(s: &[u8], n: usize, m: usize) -> bool
    requires { (length s.now ≡ 532) × (n ≤ 32) × (m ≤ 100) }
    ensures { result ≡ framed_b s.now n m }
{
    let z = 16 + 4 * n + 3 * m;
    (two_at(s, 10) == 16) & (two_at(s, 14) as usize == 16 + 4 * n) & all_are(&s[z..530], 0)
}

// Returns where the lists are.
fn layout(s: &[u8]) -> Layout
    requires { length s.now ≡ 532 }
    ensures { result ≡ layout_b s.now }
{
    let n = two_at(s, 8) as usize;
    let m = two_at(s, 12) as usize;
    Layout {
        nspares: n,
        nbads: m,
        spares: 16,
        width: 4,
        bads: 16 + 4 * n,
    }
}

// Returns the causes of n spare entries. k is the place in both.
fn load_causes(s: &[u8], n: usize) -> [u16; 32]
    requires { (length s.now ≡ 532) × (n ≤ 32) }
    ensures { result ≡ causes_from n (drop 16 s.now) ++ drop n (replicate 32 0) }
{
    let mut out = [0u16; 32];
    for k in 0..n {
        out[k] = u16::from(s[19 + 4 * k]);
    }
    out
}

// Returns the table, run number and causes of bytes that begin as form B does.
pub fn read(s: &[u8]) -> Result<Image, Fault>
    requires { length s.now ≡ 532 }
    ensures { result ≡ read_b s.now }
{
    if !sum_fits(s) {
        return Err(Fault::Sum);
    }
    let a = layout(s);
    if !entries::counts_fit(a) || !is_framed(s, a.nspares, a.nbads) {
        return Err(Fault::Field);
    }
    let causes = load_causes(s, a.nspares);
    if !table::causes_ok(&causes, a.nspares) {
        return Err(Fault::Field);
    }
    let Some(table) = entries::load_table(s, a) else {
        return Err(Fault::Field);
    };
    Ok(Image {
        table,
        causes,
        run: four_at(s, 4),
    })
}
