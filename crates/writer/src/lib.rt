// The writer and the normaliser. Records over lent octets become the octets of their normal form (document 01, Records and meaning), front to back: the size of each
// record's body stands in a list of its own, so a header is written before what is in it. Records that a caller lends are checked, then measured, and only what is
// known to fit the room is written. An object has one normal form with all objects that mean the same: it is loaded as records that are known to be well formed and
// to fit, with their sizes, so they are written without being looked at before.
#![tactic(auto)]

ghost use Rattle.state.specs.Taking.{memory, shared_memory, NormaliseClaim, WriteClaim, WriteStateClaim};
ghost use Rattle.writer.specs.Steps.{given_memory};

mod emit;
mod item;
mod size;

use crate::emit::emit_items;
use crate::size::size_items;
use edits::take_in;
use format::{Records, Refusal, refuse};
use octets::Octets;
use records::is_well_formed;
use state::{Memory, framed_size, held};

// The first `count` records of the lists, whose bodies lie in `octets`, written to `room` front to back, with the size of each record's body in `bodies`. 16: they
// aren't a well-formed tree, or there are fewer places. 15: the octets are more than the room or more than an object may have. On a refusal `bodies` and the room
// are as they were, so sizes are stored only when all is known to fit: records are measured once for how many octets they take, and once more for the sizes.
pub fn write(
    count: usize,
    records: &Records,
    bodies: &mut [u16],
    octets: &[u8],
    room: &mut [u8],
) -> Result<Octets, Refusal>
    ensures { WriteClaim count (given_memory records.now bodies.old octets.now) bodies.new room.old room.new result }
{
    if count > bodies.len() {
        return Err(refuse(16, 0));
    }
    if !is_well_formed(count, records, octets) {
        return Err(refuse(16, 0));
    }
    let mut nowhere: [u16; 1] = [0; 1];
    let Some(all) = size_items(count, records, &mut nowhere, octets, 0, 1, 0) else {
        return Err(refuse(15, 0));
    };
    if all.total.0 > room.len() {
        return Err(refuse(15, 0));
    }
    size_items(count, records, bodies, octets, 0, 1, 0);
    let memory = Memory {
        records: *records,
        bodies: &*bodies,
        store: octets,
    };
    let reached = emit_items(count, &memory, 0, 1, 0, room, 0, false);
    Ok(Octets(reached.end))
}

// The normal form of the tree that memory holds, written to `room` front to back. 16: memory holds no tree of `count` records. 15: the octets are more than the room.
// On a refusal the room is as it was.
pub fn write_state(count: usize, memory: &Memory, room: &mut [u8]) -> Result<Octets, Refusal>
    ensures { WriteStateClaim count (shared_memory memory.now) room.old room.new result }
{
    let Some(_) = held(count, memory) else {
        return Err(refuse(16, 0));
    };
    if framed_size(memory.bodies[0]).0 > room.len() {
        return Err(refuse(15, 0));
    }
    let reached = emit_items(count, memory, 0, 1, 0, room, 0, true);
    Ok(Octets(reached.end))
}

// An object taken in and written at once: memory holds its loaded tree then, and `room` its normal form. On a refusal (1 to 13 of the object, 14, 15) all that is
// lent is as it was.
// Kept: eight slices to write in, and no struct of them, for the C interface (`spi_normalise`): state's `Memory` says why.
pub fn normalise(
    object: &[u8],
    tags: &mut [u8],
    kinds: &mut [u8],
    depths: &mut [u8],
    parents: &mut [u16],
    starts: &mut [u16],
    sizes: &mut [u16],
    bodies: &mut [u16],
    store: &mut [u8],
    room: &mut [u8],
) -> Result<Octets, Refusal>
    ensures { NormaliseClaim object.now (memory tags.old kinds.old depths.old parents.old starts.old sizes.old bodies.old store.old) (memory tags.new kinds.new depths.new parents.new starts.new sizes.new bodies.new store.new) room.old room.new result }
{
    let most = Octets(room.len());
    let count = take_in(
        object, tags, kinds, depths, parents, starts, sizes, bodies, store, most,
    )?;
    let memory = Memory::of(tags, kinds, depths, parents, starts, sizes, bodies, store);
    let reached = emit_items(count, &memory, 0, 1, 0, room, 0, true);
    Ok(Octets(reached.end))
}
