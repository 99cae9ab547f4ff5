// Texts made of bytes and read, and the kind that they are.
ghost use Rattle.std.specs.Prelude.{◌≡◌, ◌≤◌, ◌↔◌, length, replicate, IsOk, IfOk, IsOkUnless, refl};
ghost use Rattle.std.proofs.Common.{ap, lit≤};
ghost use Rattle.refusals.specs.declared.Refusal.TheVariants.{TextTooLong};
ghost use Rattle.kinds.specs.Hashes.{mixed_bytes};
ghost use Rattle.kinds.specs.TextBytes.{text_of};
ghost use Rattle.kinds.specs.Texts.{order_bytes, same_bytes};
ghost use Rattle.kinds.specs.TextsLemmas.{same_decides, same_self, same_swap, same_chain, order_same, order_zero, order_swap, order_chain};

use crate::hash::mix;
use crate::text::Text;
use crate::{Keyed, Ordered};
use refusals::Refusal;
use std::cmp::Ordering;

// The most bytes that a text may have.
pub const MAX_TEXT: usize = 16;

impl Text {
    pub fn new(bytes: &[u8]) -> Result<Text, Refusal>
        ensures fits { IsOk result ↔ (length bytes.now ≤ 16) }
        ensures holds { IfOk result (λ t. text_of t ≡ bytes.now) }
        ensures refusal { IsOkUnless result TextTooLong }
    {
        if bytes.len() > MAX_TEXT {
            return Err(Refusal::TextTooLong);
        }
        let mut padded = [0; 16];
        padded[..bytes.len()].copy_from_slice(bytes);
        Ok(Text {
            bytes: padded,
            len: bytes.len(),
        })
    }

    pub fn as_bytes(&self) -> &[u8]
        ensures { result.now ≡ text_of self.now }
    {
        &self.bytes[..self.len]
    }
}

impl Keyed for Text {
    ghost empty = { record { bytes = replicate 16 0; len = 0; short = lit≤ tt; spare = refl } };

    ghost same = { λ a b. same_bytes (text_of a) (text_of b) };

    ghost hashed = { λ a. mixed_bytes (text_of a) };

    ghost reflexive = { λ a. same_self (text_of a) };

    ghost symmetric = { λ a b. same_swap (text_of a) (text_of b) };

    ghost transitive = { λ a b c h k. same_chain (text_of a) (text_of b) (text_of c) h k };

    ghost hash_agrees = { λ a b h. ap mixed_bytes ((same_decides (text_of a) (text_of b)).0 h) };

    fn blank() -> Text {
        Text {
            bytes: [0; 16],
            len: 0,
        }
    }

    #[tactic(auto, using(crate::proofs::Padded::same_padded))]
    fn equal(&self, other: &Text) -> bool {
        self == other
    }

    fn hash(&self) -> u64 {
        let (words, _) = self.bytes.as_chunks::<8>();
        let low = u64::from_le_bytes(words[0]);
        let high = u64::from_le_bytes(words[1]);
        mix(low ^ mix(high ^ self.len as u64))
    }
}

impl Ordered for Text {
    ghost order = { λ a b. order_bytes (text_of a) (text_of b) };

    ghost zero_same = { λ a b h. order_same (text_of a) (text_of b) h };

    ghost same_zero = { λ a b h. order_zero (text_of a) (text_of b) h };

    ghost swapped = { λ a b. order_swap (text_of a) (text_of b) };

    ghost chain = { λ a b c h k. order_chain (text_of a) (text_of b) (text_of c) h k };

    #[tactic(auto, using(crate::specs::TextsLemmas::order_from_lex))]
    fn compare(&self, other: &Text) -> Ordering {
        self.as_bytes().cmp(other.as_bytes())
    }
}
