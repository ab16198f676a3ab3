// The rules of where an item may stand, by its tag, the tag of its element and what came before it (document 01, Framing and Refusal numbers:
// 4, 6, 7, 8 and 13). An object's items and records that are lent are held to the same ones, so each is said here, once. Also what is listed of an item.
#![tactic(auto)]

mod rules;
mod seen;
mod sorts;

pub use rules::{is_allowed, is_short, is_top, is_within_depth, latest_of, stage_after};
pub use seen::{has_bit, with_bit};
pub use sorts::{holds_items, holds_text, listed_as};
use values::Kind;

// What is listed of an item: nothing; its record and those of the items inside it; its record, with a value of a kind.
#[derive(Clone, Copy)]
pub enum Listed {
    Nothing,
    Inside,
    Value(Kind),
}
