// A whole cue: an integer that fits an i64, ordered by value.
ghost use Rattle.std.specs.Prelude.{pos};
ghost use Rattle.std.specs.Int.{w64, cast_unsigned};
ghost use Rattle.std.proofs.Common.{rules};
ghost use Rattle.kinds.specs.Hashes.{mixed};
ghost use Rattle.kinds.specs.Orders.{order_z, same_z};

use crate::hash::mix;
use crate::{Keyed, Ordered};
use std::cmp::Ordering;

#[derive(Clone, Copy, PartialEq, Eq, PartialOrd, Ord, Debug)]
pub struct Whole {
    pub value: i64,
}

impl Keyed for Whole {
    ghost empty = { record { value = pos 0 } };

    ghost same = { λ a b. same_z a.value b.value };

    ghost hashed = { λ a. mixed (cast_unsigned w64 a.value) };

    ghost reflexive = { Prim.search rules };

    ghost symmetric = { Prim.search rules };

    ghost transitive = { Prim.search rules };

    ghost hash_agrees = { Prim.search rules };

    fn blank() -> Whole {
        Whole { value: 0 }
    }

    fn equal(&self, other: &Whole) -> bool {
        self == other
    }

    fn hash(&self) -> u64 {
        mix(self.value.cast_unsigned())
    }
}

impl Ordered for Whole {
    ghost order = { λ a b. order_z a.value b.value };

    ghost zero_same = { Prim.search rules };

    ghost same_zero = { Prim.search rules };

    ghost swapped = { Prim.search rules };

    ghost chain = { Prim.search rules };

    fn compare(&self, other: &Whole) -> Ordering {
        self.cmp(other)
    }
}
