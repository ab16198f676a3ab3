// Numbers of parents and places in the store that point behind a cut follow what moves there.
ghost use Rattle.std.specs.Prelude.{◌≡◌, map, ◌+◌, ◌-◌, ◌≤◌};
ghost use Rattle.std.proofs.lemmas.List.Edits.{sets};
ghost use Rattle.octets.specs.Places.{between};
ghost use Rattle.edits.specs.Sites.{shifted, start_after, shifted_starts};
ghost use Rattle.edits.specs.Moves.{carried, Renumbers, CarriesParents, Movable, Shifts, CarriesStarts};

use crate::moving::{Move, move_to};
use tags::holds_items;

// The number of a parent, where the records from `from` on are those from `to` on.
fn next_parent(parent: u16, from: usize, to: usize) -> u16
    requires { shifted from to parent ≤ 65_535 }
    ensures { result ≡ shifted from to parent }
{
    let number = parent as usize;
    if number < from {
        return parent;
    }
    (number - from + to) as u16
}

// The parents of the records from one number up to another.
pub fn shift_parents(parents: &mut [u16], first: usize, last: usize, from: usize, to: usize)
    requires { Renumbers first last from to parents.old }
    ensures { parents.new ≡ sets parents.old first (map (shifted from to) (between parents.old first last)) }
{
    for i in first..last {
        parents[i] = next_parent(parents[i], from, to);
    }
}

fn move_start(start: u16, was: usize, is: usize) -> u16
    requires { (was ≤ start) × (start - was + is ≤ 65_535) }
    ensures { result ≡ start - was + is }
{
    (start as usize - was + is) as u16
}

// Where a body lies that lay behind what ended at `was` and now ends at `is`; an element that holds items keeps its span.
fn next_start(tag: u8, start: u16, was: usize, is: usize) -> u16
    requires { Movable was is tag start }
    ensures { result ≡ start_after was is tag start }
{
    if holds_items(tag) {
        return start;
    }
    move_start(start, was, is)
}

// The starts of the records from one number up to another.
pub fn shift_starts(
    tags: &[u8],
    starts: &mut [u16],
    first: usize,
    last: usize,
    was: usize,
    is: usize,
)
    requires { Shifts first last was is tags.now starts.old }
    ensures { starts.new ≡ sets starts.old first (shifted_starts was is (between tags.now first last) (between starts.old first last)) }
{
    for i in first..last {
        starts[i] = next_start(tags[i], starts[i], was, is);
    }
}

// The parents of records that move.
pub fn carry_parents(parents: &mut [u16], part: Move)
    requires { CarriesParents part parents.old }
    ensures { parents.new ≡ carried part (map (shifted part.from part.to)) parents.old }
{
    move_to(parents, part);
    let last = part.to + (part.end - part.from);
    shift_parents(parents, part.to, last, part.from, part.to);
}

// The starts of records that move, whose tags have moved before.
pub fn carry_starts(tags: &[u8], starts: &mut [u16], part: Move, was: usize, is: usize)
    requires { CarriesStarts part was is tags.now starts.old }
    ensures { starts.new ≡ carried part (shifted_starts was is (between tags.now part.to (part.to + (part.end - part.from)))) starts.old }
{
    move_to(starts, part);
    let last = part.to + (part.end - part.from);
    shift_starts(tags, starts, part.to, last, was, is);
}
