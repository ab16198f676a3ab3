// Whether an item is written, and how many octets its value then has.
ghost use Rattle.std.specs.Prelude.{◌≡◌, length};
ghost use Rattle.values.specs.Calls.{as_known};
ghost use Rattle.survey.specs.Normal.{value_octets, written_as};

use octets::Octets;
use values::{Kind, is_default, known_kind, normal_size};

// The kind of value as which an item is written in normal form; None: it isn't written. Whoever writes a normal form, exports an object or asks whether octets
// are a normal form asks this call. Whoever measures wants the size of a default too, and asks for the kind and the default by themselves.
pub fn written_as(parent: u8, tag: u8, body: &[u8]) -> Option<Kind>
    ensures { result ≡ as_known (written_as parent tag body.now) }
{
    if tag == 4 {
        return None;
    }
    if is_default(parent, tag, body) {
        return None;
    }
    known_kind(parent, tag)
}

// The normal octets of a value, by their number. Octets that are no value of the kind, which no accepted item and no well-formed record has, have none.
pub fn value_size(kind: Kind, body: &[u8]) -> Octets
    ensures { result.0 ≡ length (value_octets kind body.now) }
{
    normal_size(kind, body).unwrap_or(Octets(0))
}
