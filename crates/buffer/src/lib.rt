// Runs of bytes in lent buffers: written, filled, compared, summed. A walk is a `for`: chains over a slice, its `==` and `contains`
// compile to lines that cross/forms does not have. A place `at` stands beside a buffer, since runs are put together by `over`.
#![tactic(auto)]

ghost use Rattle.std.specs.Prelude.{◌≡◌, ◌+◌, ◌*◌, ◌≤◌, length, replicate, take};
ghost use Rattle.buffer.specs.Runs.{over, same, all_are, sum};

// Returns the first n items, or all where there are fewer.
pub fn cut<T>(s: &[T], n: usize) -> &[T]
    ensures { result.now ≡ take n s.now }
{
    &s[..n.min(s.len())]
}

// Writes the run from place `at` of out on. A loop, since copy_from_slice makes numbers of addresses, and cross/forms has no such line.
#[tactic(auto, using(crate::proofs::Over::writing))]
pub fn put<T: Copy>(out: &mut [T], at: usize, run: &[T])
    requires { at + length run.now ≤ length out.old }
    ensures { out.new ≡ over at run.now out.old }
{
    for (i, item) in run.iter().enumerate() {
        out[at + i] = *item;
    }
}

// Writes the run from place `at` of out on, and returns its sum. Each byte is read once for both.
#[tactic(auto, using(crate::proofs::Sums::adding, crate::proofs::Over::writing))]
pub fn put_summed(out: &mut [u8], at: usize, run: &[u8]) -> u32
    requires { (at + length run.now ≤ length out.old) × (length run.now ≤ 532) }
    ensures { (out.new ≡ over at run.now out.old) × (result ≡ sum run.now) × (result ≤ 255 * length run.now) }
{
    let mut t = 0;
    for (i, x) in run.iter().enumerate() {
        out[at + i] = *x;
        t += u32::from(*x);
    }
    t
}

// Returns the sum of the bytes.
#[tactic(auto, using(crate::proofs::Sums::adding))]
pub fn sum(s: &[u8]) -> u32
    requires { length s.now ≤ 532 }
    ensures { result ≡ sum s.now }
{
    let mut t = 0;
    for x in s {
        t += u32::from(*x);
    }
    t
}

// Writes v n times from place `at` of out on.
#[tactic(auto, using(crate::proofs::Over::over_part))]
pub fn fill(out: &mut [u8], at: usize, n: usize, v: u8)
    requires { at + n ≤ length out.old }
    ensures { out.new ≡ over at (replicate n v) out.old }
{
    out[at..at + n].fill(v)
}

// Says whether two runs are the same. The loop has no branch, so that it is compiled to wide compares.
#[tactic(auto, using(crate::proofs::Compare::comparing))]
pub fn same_bytes(a: &[u8], b: &[u8]) -> bool
    ensures { result ≡ same a.now b.now }
{
    if a.len() != b.len() {
        return false;
    }
    let mut ok = true;
    for (i, x) in a.iter().enumerate() {
        ok = ok & (*x == b[i]);
    }
    ok
}

// Says whether every byte is v.
#[tactic(auto, using(crate::proofs::Compare::gathering))]
pub fn all_are(s: &[u8], v: u8) -> bool
    ensures { result ≡ all_are v s.now }
{
    let mut ok = true;
    for x in s {
        ok = ok & (*x == v);
    }
    ok
}
