// What is listed of an item, and what its body holds.
ghost use Rattle.std.specs.Prelude.{◌≡◌};
ghost use Rattle.values.specs.Table.{known};
ghost use Rattle.format.specs.Judge.{is_text};
ghost use Rattle.format.specs.Meaning.{opens};
ghost use Rattle.tags.specs.Listed.{listed_as};

use crate::Listed;
use values::{Kind, known_kind};

// An unknown item and the token table have no record. Whoever walks over the items of an object, to fill records, to measure, to lay, to compare or to show
// them, asks this one call.
pub fn listed_as(parent: u8, tag: u8) -> Listed
    ensures { result ≡ listed_as (known parent tag) }
{
    match known_kind(parent, tag) {
        None => Listed::Nothing,
        Some(kind) => match kind {
            Kind::HoldsItems => Listed::Inside,
            Kind::HoldsTokens => Listed::Nothing,
            Kind::HoldsText => Listed::Value(kind),
            Kind::HoldsPlain => Listed::Value(kind),
            Kind::HoldsTime => Listed::Value(kind),
            Kind::HoldsBearer => Listed::Value(kind),
            Kind::HoldsNumber(_) => Listed::Value(kind),
        },
    }
}

// An element that holds items, wherever it stands.
pub fn holds_items(tag: u8) -> bool
    ensures { result ≡ opens tag }
{
    matches!(listed_as(0, tag), Listed::Inside)
}

// An item whose body is text.
pub fn holds_text(parent: u8, tag: u8) -> bool
    ensures { result ≡ is_text (known parent tag) }
{
    match known_kind(parent, tag) {
        None => false,
        Some(kind) => match kind {
            Kind::HoldsText => true,
            _ => false,
        },
    }
}
