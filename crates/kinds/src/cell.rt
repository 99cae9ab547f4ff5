// Cells of a keyed kind, each null or one cue, are a keyed kind themselves, whose blank is null.
ghost use Rattle.std.specs.Prelude.{None};
ghost use Rattle.kinds.specs.CellKinds.{hash_cell, same_cell};
ghost use Rattle.std.proofs.Common.{rules};

use crate::Keyed;

impl<K: Keyed> Keyed for Option<K> {
    ghost empty = { None };

    ghost same = { λ a b. same_cell K.Keyed.same a b };

    ghost hashed = { λ a. hash_cell K.Keyed.hashed a };

    ghost reflexive = { Prim.search rules };

    ghost symmetric = { Prim.search rules };

    ghost transitive = { Prim.search rules };

    ghost hash_agrees = { Prim.search rules };

    fn blank() -> Option<K> {
        None
    }

    // Two cues are equal as their kind says; a derived equality would compare their bits.
    fn equal(&self, other: &Option<K>) -> bool {
        match (self, other) {
            (None, None) => true,
            (Some(a), Some(b)) => a.equal(b),
            _ => false,
        }
    }

    fn hash(&self) -> u64 {
        self.map_or(0, |cue| cue.hash())
    }
}
