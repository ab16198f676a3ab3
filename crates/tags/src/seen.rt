// Rule 8: which known attributes of an element were met, a bit for each tag from 0x80 to 0xBF. No known attribute has a tag above these.
ghost use Rattle.std.specs.Prelude.{◌≡◌};
ghost use Rattle.tags.specs.Rules.{has_bit, with_bit};

// Whether the bit of a tag is set.
#[tactic(auto, using(crate::proofs::Masks::bit_is), unfolding(crate::specs::Rules::has_bit))]
pub fn has_bit(mask: u64, tag: u8) -> bool
    ensures { result ≡ has_bit mask tag }
{
    if tag < 0x80 || tag > 0xBF {
        return false;
    }
    (mask >> (tag - 0x80)) & 1 == 1
}

// The mask with the bit of a tag.
#[tactic(auto, using(crate::proofs::Masks::one_shifted), unfolding(crate::specs::Rules::with_bit))]
pub fn with_bit(mask: u64, tag: u8) -> u64
    ensures { result ≡ with_bit mask tag }
{
    if tag < 0x80 || tag > 0xBF {
        return mask;
    }
    mask | (1u64 << (tag - 0x80))
}
