// Where an item lies in a part. Whoever walks over items that are accepted goes from one to the next by this call alone.
ghost use Rattle.std.specs.Prelude.{◌≡◌};
ghost use Rattle.octets.specs.Places.{lies_at};

use crate::{Lies, read_header};

// The item that begins at a place of a part. None begins behind its end.
pub fn item_at(part: &[u8], at: usize) -> Option<Lies>
    ensures { result ≡ lies_at part.now at }
{
    if at > part.len() {
        return None;
    }
    let Some(body) = read_header(&part[at..]) else {
        return None;
    };
    let from = at + body.start;
    if body.size > part.len() - from {
        return None;
    }
    Some(Lies {
        from,
        to: from + body.size,
    })
}
