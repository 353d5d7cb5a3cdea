// Works out the Adler-32 sum of bytes, as zlib does.
ghost use Rattle.std.specs.Prelude.{◌≡◌, ◌≤◌, length};
ghost use Rattle.test_script.specs.Sums.{adler_of};

// Returns the sum. Both sums of 4096 bytes fit 32 bits, so they are reduced at the end.
#[tactic(auto, using(crate::proofs::Sums::summing))]
pub fn adler(s: &[u8]) -> u32
    requires { length s.now ≤ 4096 }
    ensures { result ≡ adler_of s.now }
{
    let mut low: u32 = 1;
    let mut high: u32 = 0;
    for x in s {
        low += u32::from(*x);
        high += low;
    }
    high % 65521 * 65536 + low % 65521
}
