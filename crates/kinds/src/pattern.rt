// A pattern cue: a 64-bit float as its bits, in the total order of IEEE 754, which is not that of the bits as a number.
ghost use Rattle.std.specs.Prelude.{◌≡◌, ◌==◌};
ghost use Rattle.kinds.specs.Hashes.{mixed};
ghost use Rattle.kinds.specs.Patterns.{ranked, total_order};
ghost use Rattle.std.proofs.Common.{rules};
ghost use Rattle.kinds.specs.PatternsLemmas.{total_same, total_chain};

use crate::hash::mix;
use crate::{Keyed, Ordered};
use std::cmp::Ordering;

#[derive(Clone, Copy, PartialEq, Eq, Debug)]
pub struct Pattern {
    pub bits: u64,
}

const SIGN: u64 = 1 << 63;

// The bits turned into a number that stands in the same order: all flipped where the sign bit is set, else that bit alone.
fn rank(bits: u64) -> u64
    ensures { result ≡ ranked bits }
{
    if bits >= SIGN { !bits } else { bits ^ SIGN }
}

impl Keyed for Pattern {
    ghost empty = { record { bits = 0 } };

    ghost same = { λ a b. (a.bits == b.bits) };

    ghost hashed = { λ a. mixed a.bits };

    ghost reflexive = { Prim.search rules };

    ghost symmetric = { Prim.search rules };

    ghost transitive = { Prim.search rules };

    ghost hash_agrees = { Prim.search rules };

    fn blank() -> Pattern {
        Pattern { bits: 0 }
    }

    fn equal(&self, other: &Pattern) -> bool {
        self == other
    }

    fn hash(&self) -> u64 {
        mix(self.bits)
    }
}

impl Ordered for Pattern {
    ghost order = { λ a b. total_order a.bits b.bits };

    ghost zero_same = { λ a b h. total_same a.bits b.bits h };

    ghost same_zero = { Prim.search rules };

    ghost swapped = { Prim.search rules };

    ghost chain = { λ a b c h k. total_chain a.bits b.bits c.bits h k };

    // A derived order would be that of the bits as a number.
    fn compare(&self, other: &Pattern) -> Ordering {
        rank(self.bits).cmp(&rank(other.bits))
    }
}
