// Lists of table entries, lent as slices: an entry is a block's number or the dead mark.
#![tactic(auto)]

ghost use Rattle.std.specs.Prelude.{◌≡◌, false, ℕ, ◌+◌, ◌<◌, ◌%◌, length, take, drop, get_or};
ghost use Rattle.lists.specs.Lists.{place_of, member_of, entry_ok, entries_ok};

// The mark of a dead spare in memory. Only the image writes it as FFFFFE hex. An entry is a number and no enum, as the record's
// words have it: a C program may lend any, and code 1 tests it.
pub const DEAD: u16 = 65534;

// Returns the first place of x, if it is there.
#[tactic(auto, using(crate::proofs::Walk::searching))]
pub fn find(s: &[u16], x: u16) -> Option<usize>
    ensures { result ≡ place_of x s.now }
{
    for (i, y) in s.iter().enumerate() {
        if *y == x {
            return Some(i);
        }
    }
    None
}

// Says whether x is there. The loop has no branch, so that it is compiled to wide compares.
#[tactic(auto, using(crate::proofs::Walk::gathering))]
pub fn member(s: &[u16], x: u16) -> bool
    ensures { result ≡ member_of x s.now }
{
    let mut hit = false;
    for y in s {
        hit = hit | (*y == x);
    }
    hit
}

// Says whether x may be an entry before those of `later`, which it searches.
#[tactic(auto, unfolding(crate::specs::Lists::entry_ok))]
fn searched(marks: bool, x: u16, later: &[u16]) -> bool
    ensures { result ≡ entry_ok marks x later.now }
{
    if x == DEAD {
        return marks;
    }
    (x < 9728) & !member(later, x)
}

// Says whether the entry at place i may be before those after it, and searches them only where they may
// hold it.
#[tactic(auto, using(crate::proofs::Laws::new_beside))]
fn entry_ok(marks: bool, s: &[u16], i: usize, may: bool) -> bool
    requires { (i < length s.now) × (may ≡ false → member_of (get_or s.now i 0) (drop (i + 1) s.now) ≡ false) }
    ensures { result ≡ entry_ok marks (get_or s.now i 0) (drop (i + 1) s.now) }
{
    let x = s[i];
    if may | (9728 <= x) {
        return searched(marks, x, &s[i + 1..]);
    }
    true
}

// Returns the class of an entry, of w classes.
fn class_of(x: u16, w: usize) -> usize
    requires { 0 < w }
    ensures { (result ≡ x % w) × (result < w) }
{
    usize::from(x) % w
}

// Says whether the entries are blocks, none twice, and, where marks is true, dead marks. Goes from the end
// and notes the class of each entry, so that it searches only for an entry whose class it met before.
#[tactic(auto, using(crate::proofs::Walk::passing))]
fn pass(marks: bool, s: &[u16], seen: &mut [bool]) -> bool
    requires { (0 < length seen.old) × ((y : ℕ) → get_or seen.old y false ≡ false) }
    ensures { result ≡ entries_ok marks s.now }
{
    let w = seen.len();
    for i in (0..s.len()).rev() {
        let c = class_of(s[i], w);
        if !entry_ok(marks, s, i, seen[c]) {
            return false;
        }
        seen[c] = true;
    }
    true
}

// Says the same. For a short list few classes are enough, and are cleared sooner.
fn list_ok(marks: bool, s: &[u16]) -> bool
    ensures { result ≡ entries_ok marks s.now }
{
    if s.len() <= 16 {
        let mut seen = [false; 128];
        return pass(marks, s, &mut seen);
    }
    let mut seen = [false; 1024];
    pass(marks, s, &mut seen)
}

// Says the same of the list in the first n places of an array. An empty list costs one test.
#[tactic(auto, unfolding(crate::specs::Lists::entries_ok))]
pub fn entries_ok(marks: bool, s: &[u16], n: usize) -> bool
    ensures { result ≡ entries_ok marks (take n s.now) }
{
    if n == 0 {
        return true;
    }
    list_ok(marks, buffer::cut(s, n))
}
