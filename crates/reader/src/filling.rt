// Filling lent lists with the records of an object that is accepted, and for whose records they have places. Nothing is judged again: `item_at` says where an
// item's body lies, and `listed_as` what is written of it.
ghost use Rattle.std.specs.Prelude.{◌≡◌};
ghost use Rattle.format.specs.Tree.{record_of};
ghost use Rattle.format.specs.Lent.{lent_lists, Stay};
ghost use Rattle.reader.specs.Filling.{Narrow, Fillable, Fills, ItemFillable, ItemFills};

use format::{Record, RecordsMut, kind_of};
use octets::item_at;
use tags::{Listed, listed_as};

// Where reading stands: the element whose items are read (its tag and the number of its record), the depth of these items, an offset
// of the object, and the number that the next record gets. The object itself counts as an element with the tag 0, whose one item is
// the top.
#[derive(Clone, Copy)]
pub struct Place {
    pub element: u8,
    pub number: usize,
    pub depth: u8,
    pub offset: usize,
    pub next: usize,
}

// An accepted object has at most 32,768 octets and half as many records, so that each field has its number whole.
fn record_of(tag: u8, body: &[u8], place: Place) -> Record
    requires { Narrow place body.now }
    ensures { result ≡ record_of place.depth place.number tag place.offset body.now }
{
    let kind = kind_of(tag);
    let parent = place.number as u16;
    let start = place.offset as u16;
    let size = body.len() as u16;
    Record {
        tag,
        kind,
        depth: place.depth,
        parent,
        start,
        size,
    }
}

// The records of one item, whose body begins at the place's offset, and the number behind them.
#[cycle(fill_item_fill_items)]
fn fill_item(tag: u8, body: &[u8], place: Place, records: &mut RecordsMut) -> usize
    requires { ItemFillable place tag body.now (lent_lists records.old) }
    ensures fills { ItemFills place tag body.now (lent_lists records.old) (lent_lists records.new) result }
    ensures stay { Stay records.old records.new }
{
    let n = place.next;
    match listed_as(place.element, tag) {
        Listed::Nothing => n,
        Listed::Value(_) => {
            let record = record_of(tag, body, place);
            records.put(n, record);
            n + 1
        }
        Listed::Inside => {
            let record = record_of(tag, body, place);
            records.put(n, record);
            let inner = Place {
                element: tag,
                number: n,
                depth: place.depth + 1,
                offset: place.offset,
                next: n + 1,
            };
            fill_items(body, inner, records)
        }
    }
}

// The records of the items in a part, which begins at the place's offset, and the number behind them.
#[cycle(fill_item_fill_items)]
pub fn fill_items(part: &[u8], place: Place, records: &mut RecordsMut) -> usize
    requires { Fillable place part.now (lent_lists records.old) }
    ensures fills { Fills place part.now (lent_lists records.old) (lent_lists records.new) result }
    ensures stay { Stay records.old records.new }
{
    let mut next = place.next;
    let mut at: usize = 0;
    while at < part.len() {
        let Some(lies) = item_at(part, at) else {
            return next;
        };
        let item = Place {
            element: place.element,
            number: place.number,
            depth: place.depth,
            offset: place.offset + lies.from,
            next,
        };
        let tag = part[at];
        let body = &part[lies.from..lies.to];
        next = fill_item(tag, body, item, records);
        at = lies.to;
    }
    next
}
