// A kind of cue for checks: its equality is coarser than that of its bits, so that nothing above leans on more than the laws.
#![tactic(auto)]

ghost use Rattle.std.specs.Prelude.{◌≡◌, ◌/◌, ◌==◌};
ghost use Rattle.kinds.specs.Orders.{order_n};
ghost use Rattle.std.proofs.Common.{rules};

use kinds::{Keyed, Ordered};
use std::cmp::Ordering;

#[derive(Clone, Copy, Debug)]
pub struct Coarse {
    pub value: u32,
}

impl Coarse {
    fn half(&self) -> u32
        ensures { result ≡ self.now.value / 2 }
    {
        self.value / 2
    }
}

// Of two neighbours, 2n and 2n + 1, each is as good as the other, which no derive says.
impl Keyed for Coarse {
    ghost empty = { record { value = 0 } };

    ghost same = { λ a b. (a.value / 2 == b.value / 2) };

    ghost hashed = { λ a. a.value / 2 };

    ghost reflexive = { Prim.search rules };

    ghost symmetric = { Prim.search rules };

    ghost transitive = { Prim.search rules };

    ghost hash_agrees = { Prim.search rules };

    fn blank() -> Coarse {
        Coarse { value: 0 }
    }

    fn equal(&self, other: &Coarse) -> bool {
        self.half() == other.half()
    }

    fn hash(&self) -> u64 {
        u64::from(self.half())
    }
}

impl Ordered for Coarse {
    ghost order = { λ a b. order_n (a.value / 2) (b.value / 2) };

    ghost zero_same = { Prim.search rules };

    ghost same_zero = { Prim.search rules };

    ghost swapped = { Prim.search rules };

    ghost chain = { Prim.search rules };

    fn compare(&self, other: &Coarse) -> Ordering {
        self.half().cmp(&other.half())
    }
}
