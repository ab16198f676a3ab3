// The library for programs in C: each export calls the function of its name in spi_c, and states its clauses again. include/spi.h declares them.
#![tactic(auto)]

ghost use Rattle.std.specs.Prelude.{◌≡◌};
ghost use Rattle.text.specs.Text.{text};
ghost use Rattle.format.specs.Lent.{six};
ghost use Rattle.state.specs.Taking.{memory};
ghost use Rattle.edits.specs.Tree.Edit.{replace, remove, insert};
ghost use Rattle.spi_c.specs.Claims.{ReadsC, ScansC, SpansC, WritesC, NormalisesC, TakesInC, EditsC, WritesStateC, GatesC, SameC, ExportsC, SizesC, ChecksPackedC, PacksC, services_of, MergesC};

#[unsafe(no_mangle)]
pub extern "C" fn spi_read(
    object: &[u8],
    tags: &mut [u8],
    kinds: &mut [u8],
    depths: &mut [u8],
    parents: &mut [u16],
    starts: &mut [u16],
    sizes: &mut [u16],
) -> u64
    ensures { ReadsC object.now (six tags.old kinds.old depths.old parents.old starts.old sizes.old) (six tags.new kinds.new depths.new parents.new starts.new sizes.new) result }
{
    spi_c::spi_read(object, tags, kinds, depths, parents, starts, sizes)
}

#[unsafe(no_mangle)]
pub extern "C" fn spi_scan(object: &[u8]) -> u64
    ensures { ScansC object.now result }
{
    spi_c::spi_scan(object)
}

#[unsafe(no_mangle)]
pub extern "C" fn spi_sizes(object: &[u8]) -> u64
    ensures { SizesC object.now result }
{
    spi_c::spi_sizes(object)
}

#[unsafe(no_mangle)]
pub extern "C" fn spi_span(object: &[u8], starts: &[u16], sizes: &[u16], number: usize) -> u64
    ensures { SpansC object.now starts.now sizes.now number result }
{
    spi_c::spi_span(object, starts, sizes, number)
}

#[unsafe(no_mangle)]
pub extern "C" fn spi_write(
    count: usize,
    tags: &[u8],
    kinds: &[u8],
    depths: &[u8],
    parents: &[u16],
    starts: &[u16],
    sizes: &[u16],
    bodies: &mut [u16],
    octets: &[u8],
    room: &mut [u8],
) -> u64
    ensures { WritesC count (memory tags.now kinds.now depths.now parents.now starts.now sizes.now bodies.old octets.now) bodies.new room.old room.new result }
{
    spi_c::spi_write(
        count, tags, kinds, depths, parents, starts, sizes, bodies, octets, room,
    )
}

#[unsafe(no_mangle)]
pub extern "C" fn spi_normalise(
    object: &[u8],
    tags: &mut [u8],
    kinds: &mut [u8],
    depths: &mut [u8],
    parents: &mut [u16],
    starts: &mut [u16],
    sizes: &mut [u16],
    bodies: &mut [u16],
    store: &mut [u8],
    room: &mut [u8],
) -> u64
    ensures { NormalisesC object.now (memory tags.old kinds.old depths.old parents.old starts.old sizes.old bodies.old store.old) (memory tags.new kinds.new depths.new parents.new starts.new sizes.new bodies.new store.new) room.old room.new result }
{
    spi_c::spi_normalise(
        object, tags, kinds, depths, parents, starts, sizes, bodies, store, room,
    )
}

#[unsafe(no_mangle)]
pub extern "C" fn spi_take_in(
    object: &[u8],
    tags: &mut [u8],
    kinds: &mut [u8],
    depths: &mut [u8],
    parents: &mut [u16],
    starts: &mut [u16],
    sizes: &mut [u16],
    bodies: &mut [u16],
    store: &mut [u8],
) -> u64
    ensures { TakesInC object.now (memory tags.old kinds.old depths.old parents.old starts.old sizes.old bodies.old store.old) (memory tags.new kinds.new depths.new parents.new starts.new sizes.new bodies.new store.new) result }
{
    spi_c::spi_take_in(
        object, tags, kinds, depths, parents, starts, sizes, bodies, store,
    )
}

#[unsafe(no_mangle)]
pub extern "C" fn spi_replace_text(
    count: usize,
    number: usize,
    text: &[u8],
    tags: &[u8],
    kinds: &[u8],
    depths: &[u8],
    parents: &[u16],
    starts: &mut [u16],
    sizes: &mut [u16],
    bodies: &mut [u16],
    store: &mut [u8],
) -> u64
    ensures { EditsC (replace number text.now) count (memory tags.now kinds.now depths.now parents.now starts.old sizes.old bodies.old store.old) (memory tags.now kinds.now depths.now parents.now starts.new sizes.new bodies.new store.new) result }
{
    spi_c::spi_replace_text(
        count, number, text, tags, kinds, depths, parents, starts, sizes, bodies, store,
    )
}

#[unsafe(no_mangle)]
pub extern "C" fn spi_remove(
    count: usize,
    number: usize,
    tags: &mut [u8],
    kinds: &mut [u8],
    depths: &mut [u8],
    parents: &mut [u16],
    starts: &mut [u16],
    sizes: &mut [u16],
    bodies: &mut [u16],
    store: &mut [u8],
) -> u64
    ensures { EditsC (remove number) count (memory tags.old kinds.old depths.old parents.old starts.old sizes.old bodies.old store.old) (memory tags.new kinds.new depths.new parents.new starts.new sizes.new bodies.new store.new) result }
{
    spi_c::spi_remove(
        count, number, tags, kinds, depths, parents, starts, sizes, bodies, store,
    )
}

#[unsafe(no_mangle)]
pub extern "C" fn spi_insert(
    count: usize,
    parent: usize,
    place: usize,
    element: &[u8],
    tags: &mut [u8],
    kinds: &mut [u8],
    depths: &mut [u8],
    parents: &mut [u16],
    starts: &mut [u16],
    sizes: &mut [u16],
    bodies: &mut [u16],
    store: &mut [u8],
) -> u64
    ensures { EditsC (insert parent place element.now) count (memory tags.old kinds.old depths.old parents.old starts.old sizes.old bodies.old store.old) (memory tags.new kinds.new depths.new parents.new starts.new sizes.new bodies.new store.new) result }
{
    spi_c::spi_insert(
        count, parent, place, element, tags, kinds, depths, parents, starts, sizes, bodies, store,
    )
}

#[unsafe(no_mangle)]
pub extern "C" fn spi_write_state(
    count: usize,
    tags: &[u8],
    kinds: &[u8],
    depths: &[u8],
    parents: &[u16],
    starts: &[u16],
    sizes: &[u16],
    bodies: &[u16],
    store: &[u8],
    room: &mut [u8],
) -> u64
    ensures { WritesStateC count (memory tags.now kinds.now depths.now parents.now starts.now sizes.now bodies.now store.now) room.old room.new result }
{
    spi_c::spi_write_state(
        count, tags, kinds, depths, parents, starts, sizes, bodies, store, room,
    )
}

#[unsafe(no_mangle)]
pub extern "C" fn spi_same(a: &[u8], b: &[u8]) -> u64
    ensures { SameC a.now b.now result }
{
    spi_c::spi_same(a, b)
}

#[unsafe(no_mangle)]
pub extern "C" fn spi_gate(object: &[u8], number: u8) -> u64
    ensures { GatesC object.now number result }
{
    spi_c::spi_gate(object, number)
}

#[unsafe(no_mangle)]
pub extern "C" fn spi_export(object: &[u8], room: &mut [u8]) -> u64
    ensures { ExportsC object.now room.old room.new result }
{
    spi_c::spi_export(object, room)
}

#[unsafe(no_mangle)]
pub extern "C" fn spi_check_packed(normal: &[u8], packed: &[u8]) -> u64
    ensures { ChecksPackedC normal.now packed.now result }
{
    spi_c::spi_check_packed(normal, packed)
}

#[unsafe(no_mangle)]
pub extern "C" fn spi_pack(normal: &[u8], room: &mut [u8]) -> u64
    ensures { PacksC normal.now room.old room.new result }
{
    spi_c::spi_pack(normal, room)
}

#[unsafe(no_mangle)]
pub extern "C" fn spi_merge(
    basic: &[u8],
    advanced: &[u8],
    bearers: bool,
    tags: &mut [u8],
    kinds: &mut [u8],
    depths: &mut [u8],
    parents: &mut [u16],
    starts: &mut [u16],
    sizes: &mut [u16],
    bodies: &mut [u16],
    store: &mut [u8],
    room: &mut [u8],
) -> u64
    ensures { MergesC (services_of bearers) basic.now advanced.now (memory tags.old kinds.old depths.old parents.old starts.old sizes.old bodies.old store.old) (memory tags.new kinds.new depths.new parents.new starts.new sizes.new bodies.new store.new) room.old room.new result }
{
    spi_c::spi_merge(
        basic, advanced, bearers, tags, kinds, depths, parents, starts, sizes, bodies, store, room,
    )
}

#[unsafe(no_mangle)]
pub extern "C" fn spi_check_text(octets: &[u8], tokens: bool) -> bool
    ensures { result ≡ text tokens octets.now }
{
    spi_c::spi_check_text(octets, tokens)
}
