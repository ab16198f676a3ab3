// Where the child elements of an element lie that have a meaning, in order. From item to item the walk goes by `item_at`.
ghost use Rattle.std.specs.Prelude.{◌≡◌};
ghost use Rattle.compare.specs.Walks.{is_meant, NextChild};

use octets::item_at;
use tags::{Listed, listed_as};
use values::is_attribute;

// A child element: where it begins, and between which places its body lies.
#[derive(Clone, Copy)]
pub struct Child {
    pub at: usize,
    pub from: usize,
    pub to: usize,
}

// An element that has a meaning of its own: known, and not the token table.
fn is_meant(tag: u8) -> bool
    ensures { result ≡ is_meant tag }
{
    if is_attribute(tag) {
        return false;
    }
    if tag == 1 {
        return false;
    }
    match listed_as(0, tag) {
        Listed::Nothing => false,
        Listed::Inside => true,
        Listed::Value(_) => true,
    }
}

// The first child element from the item at a place on, if there is one.
pub fn next_child(part: &[u8], at: usize) -> Option<Child>
    ensures { NextChild part.now at result }
{
    let mut i = at;
    while i < part.len() {
        let lies = item_at(part, i)?;
        if is_meant(part[i]) {
            return Some(Child {
                at: i,
                from: lies.from,
                to: lies.to,
            });
        }
        i = lies.to;
    }
    None
}
