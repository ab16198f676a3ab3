// The entry of a token table with a text.
ghost use Rattle.std.specs.Prelude.{◌≡◌};
ghost use Rattle.text.specs.Tokens.{entries};
ghost use Rattle.fold.specs.Packed.{tag_of};
ghost use Rattle.packer.specs.Leaves.{as_tag};

use compare::same_octets;

// The tag of the first entry with a text.
pub fn tag_of(table: &[u8], w: &[u8]) -> Option<u8>
    ensures { result ≡ as_tag (tag_of (entries table.now) w.now) }
{
    let mut rest = table;
    while let [tag, size, more @ ..] = rest {
        let size = usize::from(*size);
        if size > more.len() {
            return None;
        }
        let (text, behind) = more.split_at(size);
        if same_octets(text, w) {
            return Some(*tag);
        }
        rest = behind;
    }
    None
}
