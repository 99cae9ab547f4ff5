// Kinds of cue: what can be told equal and hashed, and what can be put in order.
#![tactic(auto)]

mod cell;
mod hash;
mod pattern;
mod text;
mod text_kind;
mod whole;

ghost use Rattle.std.specs.Prelude.{◌≡◌, ℕ, Bool, true, pos, neg_ℤ, ◌≤ℤ◌};
ghost use Rattle.std.specs.declared.cmp.Ordering.{Ordering as Answer};
ghost use Rattle.kinds.specs.Orders.{sign};

pub use pattern::Pattern;
use std::cmp::Ordering;
pub use text::Text;
pub use text_kind::MAX_TEXT;
pub use whole::Whole;

// A kind whose cues can be told equal and hashed.
pub trait Keyed: Copy + Drop {
    // the cue that stands in the place of a missing one
    ghost empty: { Self };

    ghost same: { Self → Self → Bool };

    ghost hashed: { Self → ℕ };

    fn blank() -> Self
        ensures { result ≡ empty };

    fn equal(&self, other: &Self) -> bool
        ensures { result ≡ same self.now other.now };

    fn hash(&self) -> u64
        ensures { result ≡ hashed self.now };

    ghost reflexive: { (a : Self) → same a a ≡ true };

    ghost symmetric: { (a b : Self) → same a b ≡ same b a };

    ghost transitive: { (a b c : Self) → same a b ≡ true → same b c ≡ true → same a c ≡ true };

    ghost hash_agrees: { (a b : Self) → same a b ≡ true → hashed a ≡ hashed b };
}

// A keyed kind whose cues also stand in an order.
pub trait Ordered: Keyed {
    ghost order: { Self → Self → Answer };

    fn compare(&self, other: &Self) -> Ordering
        ensures { result ≡ order self.now other.now };

    ghost zero_same: { (a b : Self) → sign (order a b) ≡ pos 0 → Self.Keyed.same a b ≡ true };

    ghost same_zero: { (a b : Self) → Self.Keyed.same a b ≡ true → sign (order a b) ≡ pos 0 };

    ghost swapped: { (a b : Self) → sign (order b a) ≡ neg_ℤ (sign (order a b)) };

    ghost chain: { (a b c : Self) → sign (order a b) ≤ℤ pos 0 → sign (order b c) ≤ℤ pos 0 → sign (order a c) ≤ℤ pos 0 };
}
