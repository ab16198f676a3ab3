// The loaded tree of an object, laid in one walk: the records into the lists, each text and value into the store, one behind the other in record order, and the size of
// each record's body in normal form. A body that holds items has the size of what these add to it, so it is known behind them (document 01: the size of a body is
// computed from its children before the header's length form is chosen). The object is known to be accepted and to fit, so nothing is judged and nothing refused here.
// The token table is gone through once, for its index.
// Cost: each item is looked at once, and what is stored of it is written once.
ghost use Rattle.std.specs.Prelude.{◌≡◌};
ghost use Rattle.text.specs.Tokens.{entries};
ghost use Rattle.text.specs.Index.{Indexes};
ghost use Rattle.format.specs.Calls.{put_whole};
ghost use Rattle.format.specs.Lent.{six};
ghost use Rattle.state.specs.Taking.{memory};
ghost use Rattle.edits.specs.Lay.{record_at, Narrow, ValueCountable, ValueCounts, InsideCountable, InsideCounts, ValueLayable, ValueLays, ItemLayable, InsideLayable, ItemLays, ItemsLayable, ItemsLay, Layable, LaysTree};

use crate::store::store_body;
use format::{Record, RecordsMut, kind_of};
use octets::{Octets, item_at};
use state::{added_by, framed_size};
use survey::table_of;
use tags::{Listed, listed_as};
use text::index_of;
use values::Kind;

// Where items are laid: the element that they stand in (its tag and the number of its record) and their depth. The object itself counts
// as an element with the tag 0, whose one item is the top.
#[derive(Clone, Copy)]
pub struct Level {
    pub element: u8,
    pub number: usize,
    pub depth: u8,
}

// How far the walk has come: the number that the next record gets, the place up to which the store is filled, and how many octets the items of the element so far
// add to its body in normal form.
#[derive(Clone, Copy)]
pub struct Laid {
    pub next: usize,
    pub end: usize,
    pub body: Octets,
}

// The record of an item whose octets have a span of the store. A number of a record or a place of the store is narrow, so that each field has its number whole.
fn record_of(level: Level, tag: u8, start: usize, size: usize) -> Record
    requires { Narrow level.number start size }
    ensures { result ≡ record_at level tag start size }
{
    let kind = kind_of(tag);
    let parent = level.number as u16;
    let start = start as u16;
    let size = size as u16;
    Record {
        tag,
        kind,
        depth: level.depth,
        parent,
        start,
        size,
    }
}

// A record into the six lists, at its number.
fn put_record(
    tags: &mut [u8],
    kinds: &mut [u8],
    depths: &mut [u8],
    parents: &mut [u16],
    starts: &mut [u16],
    sizes: &mut [u16],
    i: usize,
    r: Record,
)
    ensures { six tags.new kinds.new depths.new parents.new starts.new sizes.new ≡ put_whole i r (six tags.old kinds.old depths.old parents.old starts.old sizes.old) }
{
    let mut records = RecordsMut {
        tags,
        kinds,
        depths,
        parents,
        starts,
        sizes,
    };
    records.put(i, r);
}

// A value is stored up to `to`: its size is its own octets', and a default adds nothing.
fn count_value(
    element: u8,
    tag: u8,
    done: Laid,
    to: usize,
    store: &[u8],
    bodies: &mut [u16],
) -> Laid
    requires { ValueCountable done to bodies.old }
    ensures { ValueCounts element tag done to store.now bodies.old bodies.new result }
{
    let i = done.next;
    let start = done.end as u16;
    let size = (to - done.end) as u16;
    let added = added_by(element, tag, start, size, store, size);
    bodies[i] = size;
    let body = Octets(done.body.0 + added.0);
    Laid {
        next: i + 1,
        end: to,
        body,
    }
}

// The items inside an element are laid: its size is what they add, and it adds that with its own header.
fn count_inside(done: Laid, inner: Laid, bodies: &mut [u16]) -> Laid
    requires { InsideCountable done inner bodies.old }
    ensures { InsideCounts done inner bodies.old bodies.new result }
{
    let i = done.next;
    let size = inner.body.0 as u16;
    bodies[i] = size;
    let body = Octets(done.body.0 + framed_size(size).0);
    Laid {
        next: inner.next,
        end: inner.end,
        body,
    }
}

// An item that holds no items.
// Kept, here and below: the eight slices; `Memory` of state says what a struct of them to write in showed.
fn lay_value(
    kind: Kind,
    tag: u8,
    body: &[u8],
    index: &[usize; 32],
    table: &[u8],
    level: Level,
    done: Laid,
    tags: &mut [u8],
    kinds: &mut [u8],
    depths: &mut [u8],
    parents: &mut [u16],
    starts: &mut [u16],
    sizes: &mut [u16],
    bodies: &mut [u16],
    store: &mut [u8],
) -> Laid
    requires value_layable { ValueLayable (entries table.now) kind level done body.now (memory tags.old kinds.old depths.old parents.old starts.old sizes.old bodies.old store.old) }
    requires indexes { Indexes (entries table.now) index.now }
    ensures { ValueLays (entries table.now) kind tag level done body.now (memory tags.old kinds.old depths.old parents.old starts.old sizes.old bodies.old store.old) (memory tags.new kinds.new depths.new parents.new starts.new sizes.new bodies.new store.new) result }
{
    let at = done.end;
    let end = store_body(kind, index, table, body, store, at);
    let i = done.next;
    let record = record_of(level, tag, at, end - at);
    put_record(tags, kinds, depths, parents, starts, sizes, i, record);
    count_value(level.element, tag, done, end, store, bodies)
}

// An item that holds items: its record, whose span is the one of length 0 at the store's start, all of the items inside it, and the size that these give it.
#[cycle(lay_inside_lay_item_lay_items)]
fn lay_inside(
    tag: u8,
    body: &[u8],
    index: &[usize; 32],
    table: &[u8],
    level: Level,
    done: Laid,
    tags: &mut [u8],
    kinds: &mut [u8],
    depths: &mut [u8],
    parents: &mut [u16],
    starts: &mut [u16],
    sizes: &mut [u16],
    bodies: &mut [u16],
    store: &mut [u8],
) -> Laid
    requires inside_layable { InsideLayable (entries table.now) level done tag body.now (memory tags.old kinds.old depths.old parents.old starts.old sizes.old bodies.old store.old) }
    requires indexes { Indexes (entries table.now) index.now }
    ensures { ItemLays (entries table.now) level done tag body.now (memory tags.old kinds.old depths.old parents.old starts.old sizes.old bodies.old store.old) (memory tags.new kinds.new depths.new parents.new starts.new sizes.new bodies.new store.new) result }
{
    let i = done.next;
    let record = record_of(level, tag, 0, 0);
    put_record(tags, kinds, depths, parents, starts, sizes, i, record);
    let inner = Level {
        element: tag,
        number: i,
        depth: level.depth + 1,
    };
    let begun = Laid {
        next: i + 1,
        end: done.end,
        body: Octets(0),
    };
    let inside = lay_items(
        body, index, table, inner, begun, tags, kinds, depths, parents, starts, sizes, bodies,
        store,
    );
    count_inside(done, inside, bodies)
}

// One item.
#[cycle(lay_inside_lay_item_lay_items)]
fn lay_item(
    tag: u8,
    body: &[u8],
    index: &[usize; 32],
    table: &[u8],
    level: Level,
    done: Laid,
    tags: &mut [u8],
    kinds: &mut [u8],
    depths: &mut [u8],
    parents: &mut [u16],
    starts: &mut [u16],
    sizes: &mut [u16],
    bodies: &mut [u16],
    store: &mut [u8],
) -> Laid
    requires item_layable { ItemLayable (entries table.now) level done tag body.now (memory tags.old kinds.old depths.old parents.old starts.old sizes.old bodies.old store.old) }
    requires indexes { Indexes (entries table.now) index.now }
    ensures { ItemLays (entries table.now) level done tag body.now (memory tags.old kinds.old depths.old parents.old starts.old sizes.old bodies.old store.old) (memory tags.new kinds.new depths.new parents.new starts.new sizes.new bodies.new store.new) result }
{
    match listed_as(level.element, tag) {
        Listed::Nothing => done,
        Listed::Inside => lay_inside(
            tag, body, index, table, level, done, tags, kinds, depths, parents, starts, sizes,
            bodies, store,
        ),
        Listed::Value(kind) => lay_value(
            kind, tag, body, index, table, level, done, tags, kinds, depths, parents, starts,
            sizes, bodies, store,
        ),
    }
}

// The items in a part.
#[cycle(lay_inside_lay_item_lay_items)]
pub fn lay_items(
    part: &[u8],
    index: &[usize; 32],
    table: &[u8],
    level: Level,
    done: Laid,
    tags: &mut [u8],
    kinds: &mut [u8],
    depths: &mut [u8],
    parents: &mut [u16],
    starts: &mut [u16],
    sizes: &mut [u16],
    bodies: &mut [u16],
    store: &mut [u8],
) -> Laid
    requires items_layable { ItemsLayable (entries table.now) level done part.now (memory tags.old kinds.old depths.old parents.old starts.old sizes.old bodies.old store.old) }
    requires indexes { Indexes (entries table.now) index.now }
    ensures { ItemsLay (entries table.now) level done part.now (memory tags.old kinds.old depths.old parents.old starts.old sizes.old bodies.old store.old) (memory tags.new kinds.new depths.new parents.new starts.new sizes.new bodies.new store.new) result }
{
    let mut done = done;
    let mut at: usize = 0;
    while at < part.len() {
        let Some(lies) = item_at(part, at) else {
            return done;
        };
        let tag = part[at];
        let body = &part[lies.from..lies.to];
        done = lay_item(
            tag, body, index, table, level, done, tags, kinds, depths, parents, starts, sizes,
            bodies, store,
        );
        at = lies.to;
    }
    done
}

// The loaded tree of an object that is accepted and fits what is lent. Answers how many records it has.
pub fn lay(
    object: &[u8],
    tags: &mut [u8],
    kinds: &mut [u8],
    depths: &mut [u8],
    parents: &mut [u16],
    starts: &mut [u16],
    sizes: &mut [u16],
    bodies: &mut [u16],
    store: &mut [u8],
) -> usize
    requires { Layable object.now (memory tags.old kinds.old depths.old parents.old starts.old sizes.old bodies.old store.old) }
    ensures { LaysTree object.now (memory tags.old kinds.old depths.old parents.old starts.old sizes.old bodies.old store.old) (memory tags.new kinds.new depths.new parents.new starts.new sizes.new bodies.new store.new) result }
{
    let table = table_of(object);
    let index = index_of(table);
    let top = Level {
        element: 0,
        number: 0,
        depth: 1,
    };
    let none = Laid {
        next: 0,
        end: 0,
        body: Octets(0),
    };
    let all = lay_items(
        object, &index, table, top, none, tags, kinds, depths, parents, starts, sizes, bodies,
        store,
    );
    all.next
}
