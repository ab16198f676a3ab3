// The calls for programs in C: each answers by one number of 64 bits, so that no slot for an answer is lent. spi_c_c exports them; include/spi.h declares them.
// Kept: each list a parameter of its own, numbers and flags for enums, and answers packed in a number: the C interface (include/spi.h).
#![tactic(auto)]

ghost use Rattle.std.specs.Prelude.{◌≡◌, ◌<◌, min};
ghost use Rattle.text.specs.Text.{text};
ghost use Rattle.format.specs.Lent.{six};
ghost use Rattle.spi_c.specs.Packed.{packed, packed_counts, packed_outcome, packed_same, packed_merge, packed_span, packed_sizes, Small, SmallSame, SmallMerge, SmallSpan, SmallSizes};
ghost use Rattle.state.specs.Taking.{memory};
ghost use Rattle.edits.specs.Tree.Edit.{replace, remove, insert};
ghost use Rattle.spi_c.specs.Claims.{ReadsC, ScansC, SpansC, WritesC, NormalisesC, TakesInC, EditsC, WritesStateC, GatesC, SameC, ExportsC, SizesC, ChecksPackedC, PacksC, services_of, MergesC};

use format::{Outcome, Records, RecordsMut, SameOutcome, Span};
use merge::{MergeOutcome, Services};
use octets::Octets;
use state::Memory;
use survey::Sizes;

fn packed(number: u8, object: u8, field: u8, value: usize) -> u64
    requires { value < 0x100_0000_0000 }
    ensures { result ≡ packed number object field value }
{
    (number as u64) * 0x100_0000_0000_0000
        + (object as u64) * 0x1_0000_0000_0000
        + (field as u64) * 0x100_0000_0000
        + (value as u64)
}

// Where nothing is refused, a second count stands before the first, in the bits of the object and the field.
fn packed_counts(second: usize, first: usize) -> u64
    requires second_bound { second < 0x1_0000 }
    requires first_bound { first < 0x100_0000_0000 }
    ensures { result ≡ packed_counts second first }
{
    let upper = (second / 0x100) as u8;
    let lower = (second % 0x100) as u8;
    packed(0, upper, lower, first)
}

fn packed_outcome(o: Outcome) -> u64
    requires { Small o }
    ensures { result ≡ packed_outcome o }
{
    if o.number == 0 {
        return packed_counts(o.items, o.count);
    }
    packed(o.number, 0, o.field, o.place)
}

fn packed_same(o: SameOutcome) -> u64
    requires { SmallSame o }
    ensures { result ≡ packed_same o }
{
    if o.number == 0 {
        if o.same {
            return packed(o.number, o.which, o.field, 1);
        }
        return packed(o.number, o.which, o.field, 0);
    }
    packed(o.number, o.which, o.field, o.place)
}

fn packed_merge(o: MergeOutcome) -> u64
    requires { SmallMerge o }
    ensures { result ≡ packed_merge o }
{
    if o.number == 0 {
        return packed_counts(o.records, o.size.0);
    }
    packed(o.number, o.which, o.field, o.place)
}

fn packed_span(s: Span) -> u64
    requires { SmallSpan s }
    ensures { result ≡ packed_span s }
{
    (s.start as u64) * 0x1_0000_0000 + (s.size as u64)
}

// Octets of a store and of the normal form: the first in the upper half of the number, the second in the lower. 32,769 where the normal form has more than an
// object may have: no memory suffices then.
fn packed_sizes(sizes: Option<Sizes>) -> u64
    requires { SmallSizes sizes }
    ensures { result ≡ packed_sizes sizes }
{
    match sizes {
        None => 32_769,
        Some(sizes) => packed_span(Span {
            start: sizes.store.0,
            size: sizes.octets.0,
        }),
    }
}

// The records of an object, into six lists.
pub fn spi_read(
    object: &[u8],
    tags: &mut [u8],
    kinds: &mut [u8],
    depths: &mut [u8],
    parents: &mut [u16],
    starts: &mut [u16],
    sizes: &mut [u16],
) -> u64
    ensures { ReadsC object.now (six tags.old kinds.old depths.old parents.old starts.old sizes.old) (six tags.new kinds.new depths.new parents.new starts.new sizes.new) result }
{
    let mut records = RecordsMut {
        tags,
        kinds,
        depths,
        parents,
        starts,
        sizes,
    };
    let answer = reader::read(object, &mut records);
    packed_outcome(Outcome::from(answer))
}

// How many records and headers an object has, with no list: the answer of `spi_read` lent lists long enough.
pub fn spi_scan(object: &[u8]) -> u64
    ensures { ScansC object.now result }
{
    let answer = scan::scan(object);
    packed_outcome(Outcome::from(answer))
}

// What is to be lent to normalise an object or to take it in, beside the places that `spi_scan` counts. 0 where the object is refused.
pub fn spi_sizes(object: &[u8]) -> u64
    ensures { SizesC object.now result }
{
    match survey::needs_of(object) {
        Err(_) => 0,
        Ok(needs) => packed_sizes(needs.sizes),
    }
}

// Where the body of a record lies: the start in the upper half of the number, the size in the lower.
pub fn spi_span(object: &[u8], starts: &[u16], sizes: &[u16], number: usize) -> u64
    ensures { SpansC object.now starts.now sizes.now number result }
{
    packed_span(reader::span(object, starts, sizes, number))
}

// The normal form of the first `count` records, whose bodies lie in `octets`, into `room`; `bodies` then has the size of each record's body in it.
pub fn spi_write(
    count: usize,
    tags: &[u8],
    kinds: &[u8],
    depths: &[u8],
    parents: &[u16],
    starts: &[u16],
    sizes: &[u16],
    bodies: &mut [u16],
    octets: &[u8],
    room: &mut [u8],
) -> u64
    ensures { WritesC count (memory tags.now kinds.now depths.now parents.now starts.now sizes.now bodies.old octets.now) bodies.new room.old room.new result }
{
    let records = Records {
        tags,
        kinds,
        depths,
        parents,
        starts,
        sizes,
    };
    let answer = writer::write(count, &records, bodies, octets, room);
    packed_outcome(Outcome::from(answer))
}

// The normal form of an object, into `room`; the seven lists and the store then hold its loaded tree.
pub fn spi_normalise(
    object: &[u8],
    tags: &mut [u8],
    kinds: &mut [u8],
    depths: &mut [u8],
    parents: &mut [u16],
    starts: &mut [u16],
    sizes: &mut [u16],
    bodies: &mut [u16],
    store: &mut [u8],
    room: &mut [u8],
) -> u64
    ensures { NormalisesC object.now (memory tags.old kinds.old depths.old parents.old starts.old sizes.old bodies.old store.old) (memory tags.new kinds.new depths.new parents.new starts.new sizes.new bodies.new store.new) room.old room.new result }
{
    let answer = writer::normalise(
        object, tags, kinds, depths, parents, starts, sizes, bodies, store, room,
    );
    packed_outcome(Outcome::from(answer))
}

// An object into lent memory, to be edited there: its records, the sizes of their bodies in normal form, and its texts and values.
pub fn spi_take_in(
    object: &[u8],
    tags: &mut [u8],
    kinds: &mut [u8],
    depths: &mut [u8],
    parents: &mut [u16],
    starts: &mut [u16],
    sizes: &mut [u16],
    bodies: &mut [u16],
    store: &mut [u8],
) -> u64
    ensures { TakesInC object.now (memory tags.old kinds.old depths.old parents.old starts.old sizes.old bodies.old store.old) (memory tags.new kinds.new depths.new parents.new starts.new sizes.new bodies.new store.new) result }
{
    let answer = edits::take_in(
        object,
        tags,
        kinds,
        depths,
        parents,
        starts,
        sizes,
        bodies,
        store,
        Octets(32_768),
    );
    packed_outcome(Outcome::from(answer))
}

// Another text for a record of the tree in lent memory.
pub fn spi_replace_text(
    count: usize,
    number: usize,
    text: &[u8],
    tags: &[u8],
    kinds: &[u8],
    depths: &[u8],
    parents: &[u16],
    starts: &mut [u16],
    sizes: &mut [u16],
    bodies: &mut [u16],
    store: &mut [u8],
) -> u64
    ensures { EditsC (replace number text.now) count (memory tags.now kinds.now depths.now parents.now starts.old sizes.old bodies.old store.old) (memory tags.now kinds.now depths.now parents.now starts.new sizes.new bodies.new store.new) result }
{
    let answer = edits::replace_text(
        count, number, text, tags, kinds, depths, parents, starts, sizes, bodies, store,
    );
    packed_outcome(Outcome::from(answer))
}

// A record of the tree in lent memory goes, with all below it.
pub fn spi_remove(
    count: usize,
    number: usize,
    tags: &mut [u8],
    kinds: &mut [u8],
    depths: &mut [u8],
    parents: &mut [u16],
    starts: &mut [u16],
    sizes: &mut [u16],
    bodies: &mut [u16],
    store: &mut [u8],
) -> u64
    ensures { EditsC (remove number) count (memory tags.old kinds.old depths.old parents.old starts.old sizes.old bodies.old store.old) (memory tags.new kinds.new depths.new parents.new starts.new sizes.new bodies.new store.new) result }
{
    let answer = edits::remove(
        count, number, tags, kinds, depths, parents, starts, sizes, bodies, store,
    );
    packed_outcome(Outcome::from(answer))
}

// An element comes into the tree in lent memory, with all below it, as the child element of a number of a record.
pub fn spi_insert(
    count: usize,
    parent: usize,
    place: usize,
    element: &[u8],
    tags: &mut [u8],
    kinds: &mut [u8],
    depths: &mut [u8],
    parents: &mut [u16],
    starts: &mut [u16],
    sizes: &mut [u16],
    bodies: &mut [u16],
    store: &mut [u8],
) -> u64
    ensures { EditsC (insert parent place element.now) count (memory tags.old kinds.old depths.old parents.old starts.old sizes.old bodies.old store.old) (memory tags.new kinds.new depths.new parents.new starts.new sizes.new bodies.new store.new) result }
{
    let answer = edits::insert(
        count, parent, place, element, tags, kinds, depths, parents, starts, sizes, bodies, store,
    );
    packed_outcome(Outcome::from(answer))
}

// The normal form of the tree in lent memory, into `room`.
pub fn spi_write_state(
    count: usize,
    tags: &[u8],
    kinds: &[u8],
    depths: &[u8],
    parents: &[u16],
    starts: &[u16],
    sizes: &[u16],
    bodies: &[u16],
    store: &[u8],
    room: &mut [u8],
) -> u64
    ensures { WritesStateC count (memory tags.now kinds.now depths.now parents.now starts.now sizes.now bodies.now store.now) room.old room.new result }
{
    let memory = Memory::of(tags, kinds, depths, parents, starts, sizes, bodies, store);
    let answer = writer::write_state(count, &memory, room);
    packed_outcome(Outcome::from(answer))
}

// Whether two objects mean the same; nothing is lent.
pub fn spi_same(a: &[u8], b: &[u8]) -> u64
    ensures { SameC a.now b.now result }
{
    let answer = compare::same(a, b);
    packed_same(SameOutcome::from(answer))
}

// Whether an object may be sent to the small receiver as one of a data type: 0 SI, 1 PI, 2 GI; as any other nothing may.
pub fn spi_gate(object: &[u8], number: u8) -> u64
    ensures { GatesC object.now number result }
{
    let answer = pocket::gate(object, pocket::data_type(number));
    packed_outcome(Outcome::from(answer))
}

// As many octets as an answer can tell.
fn at_most(size: Octets) -> Octets
    ensures { result.0 ≡ min size.0 0xFF_FFFF_FFFF }
{
    if size.0 > 0xFF_FFFF_FFFF {
        return Octets(0xFF_FFFF_FFFF);
    }
    size
}

// The XML of an object's meaning, into `room`.
pub fn spi_export(object: &[u8], room: &mut [u8]) -> u64
    ensures { ExportsC object.now room.old room.new result }
{
    let most = at_most(Octets(room.len())).0;
    let answer = xml::export(object, &mut room[0..most]);
    packed_outcome(Outcome::from(answer))
}

// Whether an object may be passed on in place of a normal form: it has that very one and isn't longer; nothing is lent.
pub fn spi_check_packed(normal: &[u8], packed: &[u8]) -> u64
    ensures { ChecksPackedC normal.now packed.now result }
{
    let answer = fold::check(normal, packed);
    packed_outcome(Outcome::from(answer))
}

// A normal form with its common words folded, into `room`.
pub fn spi_pack(normal: &[u8], room: &mut [u8]) -> u64
    ensures { PacksC normal.now room.old room.new result }
{
    let answer = packer::pack(normal, room);
    packed_outcome(Outcome::from(answer))
}

// By what the services of two ensembles are told apart: the ids of their bearers, or their tag alone.
fn services(bearers: bool) -> Services
    ensures { result ≡ services_of bearers }
{
    if bearers {
        return Services::ByBearers;
    }
    Services::ByTag
}

// A Basic and an Advanced object merged: the normal form into `room`, and the seven lists and the store as taking that in leaves them.
pub fn spi_merge(
    basic: &[u8],
    advanced: &[u8],
    bearers: bool,
    tags: &mut [u8],
    kinds: &mut [u8],
    depths: &mut [u8],
    parents: &mut [u16],
    starts: &mut [u16],
    sizes: &mut [u16],
    bodies: &mut [u16],
    store: &mut [u8],
    room: &mut [u8],
) -> u64
    ensures { MergesC (services_of bearers) basic.now advanced.now (memory tags.old kinds.old depths.old parents.old starts.old sizes.old bodies.old store.old) (memory tags.new kinds.new depths.new parents.new starts.new sizes.new bodies.new store.new) room.old room.new result }
{
    let answer = merging::merge(
        services(bearers),
        basic,
        advanced,
        tags,
        kinds,
        depths,
        parents,
        starts,
        sizes,
        bodies,
        store,
        room,
    );
    packed_merge(MergeOutcome::from(answer))
}

// Whether octets are text, in which token octets may stand or not.
pub fn spi_check_text(octets: &[u8], tokens: bool) -> bool
    ensures { result ≡ text tokens octets.now }
{
    text::check(octets, tokens)
}
