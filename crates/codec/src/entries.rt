// What both forms share: entries of three bytes, and the two lists by an image's layout.
ghost use Rattle.std.specs.Prelude.{◌≡◌, ◌++◌, ◌+◌, ◌*◌, ◌≤◌, ◌<◌, length, drop};
ghost use Rattle.buffer.specs.Runs.{over, sum};
ghost use Rattle.image.specs.Layouts.{wide, triple, triples, narrow, entry_at, entries_from, counts_fit, Within};
ghost use Rattle.image.specs.Images.{writable, loaded};

use buffer::put_summed;
use image::Layout;
use table::Table;

// Returns an entry as the image has it. Only here is the dead mark FFFFFE hex.
pub fn widened(x: u16) -> u32
    ensures { (result ≡ wide x) × (result < 16777216) }
{
    if x == lists::DEAD {
        return 16777214;
    }
    u32::from(x)
}

// Writes an entry's three bytes from place `at` on, and returns their sum.
fn put_entry(out: &mut [u8], at: usize, x: u16) -> u32
    requires { at + 3 ≤ length out.old }
    ensures { (out.new ≡ over at (triple x) out.old) × (result ≡ sum (triple x)) × (result ≤ 765) }
{
    let [_, a, b, c] = widened(x).to_be_bytes();
    put_summed(out, at, &[a, b, c])
}

// Writes the entries of a list from place `at` on, and returns the sum of their bytes.
pub fn put_entries(out: &mut [u8], at: usize, list: &[u16]) -> u32
    requires { (at + 3 * length list.now ≤ length out.old) × (length list.now ≤ 100) }
    ensures { (out.new ≡ over at (triples list.now) out.old) × (result ≡ sum (triples list.now)) × (result ≤ 765 * length list.now) }
{
    let mut t = 0;
    for (k, x) in list.iter().enumerate() {
        t += put_entry(out, at + 3 * k, *x);
    }
    t
}

// Returns an entry as the table holds it: the dead mark, a block's number, or 65535, which is neither and which the test of the
// lists refuses, so that it is no Option.
fn narrowed(v: u32) -> u16
    ensures { result ≡ narrow v }
{
    if v == 16777214 {
        return lists::DEAD;
    }
    if v < 9728 {
        return v as u16;
    }
    65535
}

// Returns the entry of the three bytes from place i on.
fn entry_at(s: &[u8], i: usize) -> u16
    requires { i + 3 ≤ length s.now }
    ensures { result ≡ entry_at s.now i }
{
    narrowed(u32::from_be_bytes([0, s[i], s[i + 1], s[i + 2]]))
}

// Stores n entries, read from place `at` of s on and each w bytes after the last, at the start of out. k is the place in both.
fn load(s: &[u8], at: usize, w: usize, n: usize, out: &mut [u16])
    requires { (at + w * n ≤ length s.now) × (3 ≤ w) × (n ≤ length out.old) }
    ensures { out.new ≡ entries_from w n (drop at s.now) ++ drop n out.old }
{
    for k in 0..n {
        out[k] = entry_at(s, at + w * k);
    }
}

// Says whether two lists are short enough for a table, and their image goes into out.
pub fn writable(spares: &[u16], bads: &[u16], out: &[u8]) -> bool
    ensures { result ≡ writable spares.now bads.now out.now }
{
    (out.len() == 532) & (spares.len() <= 32) & (bads.len() <= 100)
}

// Says whether the lists are not too long.
pub fn counts_fit(a: Layout) -> bool
    ensures { result ≡ counts_fit a }
{
    (a.nspares <= 32) & (a.nbads <= 100)
}

// Returns the table of an image of which all but the entries was tested, if they are a table's. `Table::empty` and `then_some` would
// each move the whole table once more.
pub fn load_table(s: &[u8], a: Layout) -> Option<Table>
    requires { Within a s.now }
    ensures { result ≡ loaded s.now a }
{
    let mut t = Table {
        spares: [0; 32],
        bads: [0; 100],
        nspares: a.nspares,
        nbads: a.nbads,
    };
    load(s, a.spares, a.width, a.nspares, &mut t.spares);
    load(s, a.bads, 3, a.nbads, &mut t.bads);
    if t.lent().is_ok() {
        return Some(t);
    }
    None
}
