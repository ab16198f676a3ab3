// How many octets an object has in normal form, and how many of a store its texts and values take, both from the octets of the object and
// before anything is written. Nothing is judged again, and what is answered of octets that are no accepted object says nothing.
// Cost: each item is looked at once, and a text as far as its expansion can fit; the token table is gone through once.
ghost use Rattle.std.specs.Prelude.{◌≡◌, ◌≤◌, min, length};
ghost use Rattle.std.proofs.Math.Option.{some};
ghost use Rattle.text.specs.Tokens.{entries};
ghost use Rattle.text.specs.Weighing.{Widths};
ghost use Rattle.survey.specs.Normal.{framed_size, value_octets};
ghost use Rattle.survey.specs.Measure.{Measures, MeasuresInside};
ghost use Rattle.survey.specs.Sizes.{taken, part_in, sizes_of, ItemMeasured, ItemsMeasured};

use crate::table::table_of;
use crate::written::value_size;
use judge::levels_in;
use octets::{Octets, header_size, item_at};
use tags::{Listed, listed_as};
use text::{expanded_size, widths_of};
use values::{Kind, is_default};

// The octets that items take of a store and in normal form. A normal form of more than 32,768 has no such sizes, since no object may have as many.
#[derive(Clone, Copy)]
pub struct Sizes {
    pub store: Octets,
    pub octets: Octets,
}

// What is measured of an item: nothing; a default, whose one octet is kept in the store but not written; the items inside it; octets of its own, of which no
// more than 32,769 are counted.
#[derive(Clone, Copy)]
enum Part {
    Nothing,
    Kept,
    Inside,
    Octets(Octets),
}

// The octets of a value that is no text, no more than 32,769 of them counted.
fn stopped_size(kind: Kind, body: &[u8]) -> Octets
    ensures { result.0 ≡ min 32_769 (length (value_octets kind body.now)) }
{
    let size = value_size(kind, body);
    if size.0 > 32_769 {
        return Octets(32_769);
    }
    size
}

// The octets of a value of a kind, a text's with its tokens replaced.
fn octets_of(kind: Kind, body: &[u8], table: &[u8], widths: &[u8; 32]) -> Octets
    requires { Widths 32 (entries table.now) widths.now }
    ensures { result.0 ≡ min 32_769 (length (taken (entries table.now) (some kind) body.now)) }
{
    match kind {
        Kind::HoldsItems => stopped_size(kind, body),
        Kind::HoldsTokens => stopped_size(kind, body),
        Kind::HoldsText => expanded_size(widths, body, Octets(32_769)),
        Kind::HoldsPlain => stopped_size(kind, body),
        Kind::HoldsTime => stopped_size(kind, body),
        Kind::HoldsBearer => stopped_size(kind, body),
        Kind::HoldsNumber(_) => stopped_size(kind, body),
    }
}

fn part_of(parent: u8, tag: u8, body: &[u8], table: &[u8], widths: &[u8; 32]) -> Part
    requires { Widths 32 (entries table.now) widths.now }
    ensures { result ≡ part_in (entries table.now) parent tag body.now }
{
    match listed_as(parent, tag) {
        Listed::Nothing => Part::Nothing,
        Listed::Inside => Part::Inside,
        Listed::Value(kind) => {
            if is_default(parent, tag, body) {
                return Part::Kept;
            }
            Part::Octets(octets_of(kind, body, table, widths))
        }
    }
}

// An item whose body has so many octets in normal form.
fn framed(store: Octets, octets: Octets) -> Option<Sizes>
    requires { octets.0 ≤ 32_769 }
    ensures { result ≡ sizes_of store.0 (framed_size octets.0) }
{
    let size = header_size(octets).0 + octets.0;
    if size > 32_768 {
        return None;
    }
    Some(Sizes {
        store,
        octets: Octets(size),
    })
}

// One item in an element of a tag. `left` is how many levels of elements may still open: none opens below depth 16 in an accepted object.
#[cycle(measure_item_measure_items)]
fn measure_item(
    parent: u8,
    tag: u8,
    left: usize,
    body: &[u8],
    table: &[u8],
    widths: &[u8; 32],
) -> Option<Sizes>
    requires { Widths 32 (entries table.now) widths.now }
    ensures { ItemMeasured (entries table.now) parent tag left body.now result }
{
    match part_of(parent, tag, body, table, widths) {
        Part::Nothing => Some(Sizes {
            store: Octets(0),
            octets: Octets(0),
        }),
        Part::Kept => Some(Sizes {
            store: Octets(1),
            octets: Octets(0),
        }),
        Part::Octets(size) => framed(size, size),
        Part::Inside => {
            if left == 0 {
                return None;
            }
            let sizes = measure_items(tag, left - 1, body, table, widths)?;
            framed(sizes.store, sizes.octets)
        }
    }
}

// The items in a part, which is the body of an element of a tag.
#[cycle(measure_item_measure_items)]
fn measure_items(
    parent: u8,
    left: usize,
    part: &[u8],
    table: &[u8],
    widths: &[u8; 32],
) -> Option<Sizes>
    requires { Widths 32 (entries table.now) widths.now }
    ensures { ItemsMeasured (entries table.now) parent left part.now result }
{
    let mut store: usize = 0;
    let mut octets: usize = 0;
    let mut at: usize = 0;
    while at < part.len() {
        let lies = item_at(part, at)?;
        let sizes = measure_item(
            parent,
            part[at],
            left,
            &part[lies.from..lies.to],
            table,
            widths,
        )?;
        store += sizes.store.0;
        octets += sizes.octets.0;
        if octets > 32_768 {
            return None;
        }
        at = lies.to;
    }
    Some(Sizes {
        store: Octets(store),
        octets: Octets(octets),
    })
}

// An object that is accepted. The object itself counts as an element with the tag 0, whose one item is the top at depth 1.
pub fn measure(object: &[u8]) -> Option<Sizes>
    ensures { Measures object.now result }
{
    let table = table_of(object);
    let widths = widths_of(table);
    measure_items(0, 16, object, table, &widths)
}

// Items of an element of a tag and a depth, by themselves: there is no token table. They are accepted where they stand.
pub fn measure_inside(element: u8, depth: u8, octets: &[u8]) -> Option<Sizes>
    ensures { MeasuresInside element depth octets.now result }
{
    let none = &octets[0..0];
    let widths = widths_of(none);
    let left = levels_in(depth) as usize;
    measure_items(element, left, octets, none, &widths)
}
