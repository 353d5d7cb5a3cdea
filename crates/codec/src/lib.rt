// Reads and writes the table's image, 532 bytes on sector 4960: form A of document 01, form B of document
// 02, request 6.
#![tactic(auto)]

ghost use Rattle.std.specs.Prelude.{◌≡◌, ◌≤◌, length};
ghost use Rattle.image.specs.FormB.{has_magic};
ghost use Rattle.image.specs.Images.{read_of};

use buffer::same_bytes;
use image::{Fault, Image};

// The two forms have a reader and a writer each. Each step of one differs from that of the other, and no caller takes a form as a
// parameter, so that a trait over both would be longer: what is the same is in `entries`.
//
// The readers take a slice with a `requires`, and no array: what try_from makes of a slice is a byte with a pointer, which lies at
// another place on a 32-bit board, and cross/forms has no such line. The counts of an image are bounded by clauses, since
// `counts_fit` tests them a line before. Casts narrow, or go to usize, and std has no From for that.
pub mod entries;
pub mod form_a;
pub mod form_b;

// Says whether bytes begin as form B does.
pub fn is_form_b(s: &[u8]) -> bool
    requires { 4 ≤ length s.now }
    ensures { result ≡ has_magic s.now }
{
    same_bytes(&s[..4], b"\xF0\x78\x3C\x1E")
}

// Returns the table, run number and causes of an image of either form. A slice of another length is none.
pub fn read_image(s: &[u8]) -> Result<Image, Fault>
    ensures { result ≡ read_of s.now }
{
    if s.len() != 532 {
        return Err(Fault::Form);
    }
    if is_form_b(s) {
        return form_b::read(s);
    }
    form_a::read(s)
}
