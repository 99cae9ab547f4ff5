// Mixing of 64 bits, for tables of a million cells: every bit of the input moves about half the bits of the answer.
ghost use Rattle.std.specs.Prelude.{◌≡◌};
ghost use Rattle.kinds.specs.Hashes.{mixed};

const ODD: u64 = 0x9e37_79b9_7f4a_7c15;

#[tactic(auto, unfolding(crate::specs::Hashes::mixed))]
pub fn mix(n: u64) -> u64
    ensures { result ≡ mixed n }
{
    let once = (n ^ (n >> 32)).wrapping_mul(ODD);
    let twice = (once ^ (once >> 32)).wrapping_mul(ODD);
    twice ^ (twice >> 32)
}
