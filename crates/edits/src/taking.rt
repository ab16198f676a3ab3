// Taking an object into lent memory, to be edited or written from there: it is judged, measured and held against what is lent before anything is laid.
ghost use Rattle.std.specs.Prelude.{◌≡◌, min, length};
ghost use Rattle.format.specs.Calls.{places as places_of};
ghost use Rattle.format.specs.Lent.{shared_lists};
ghost use Rattle.state.specs.Taking.{memory, TakeInClaim};

use crate::lay::lay;
use format::{Records, Refusal};
use octets::Octets;
use state::Memory;
use survey::{Unfit, survey};

// How many records the seven lists have places for.
pub fn places_in(records: &Records, bodies: &[u16]) -> usize
    ensures { result ≡ min (places_of (shared_lists records.now)) (length bodies.now) }
{
    records.places().min(bodies.len())
}

// The loaded tree of an object, with the sizes of all bodies, into what is lent, where its normal form has no more octets than `most` and no more than an object may
// have. On a refusal (1 to 13 of the object, 14, 15) all that is lent is as it was.
// Kept: the eight slices; `Memory` of state says what a struct of them to write in showed.
pub fn take_in(
    object: &[u8],
    tags: &mut [u8],
    kinds: &mut [u8],
    depths: &mut [u8],
    parents: &mut [u16],
    starts: &mut [u16],
    sizes: &mut [u16],
    bodies: &mut [u16],
    store: &mut [u8],
    most: Octets,
) -> Result<usize, Refusal>
    ensures { TakeInClaim object.now most (memory tags.old kinds.old depths.old parents.old starts.old sizes.old bodies.old store.old) (memory tags.new kinds.new depths.new parents.new starts.new sizes.new bodies.new store.new) result }
{
    let memory = Memory::of(tags, kinds, depths, parents, starts, sizes, bodies, store);
    let there = places_in(&memory.records, memory.bodies);
    match survey(object, there, Octets(store.len()), most) {
        Err(Unfit::Bad(refusal)) => Err(refusal),
        Err(Unfit::Misfit(refusal)) => Err(refusal),
        Ok(()) => Ok(lay(
            object, tags, kinds, depths, parents, starts, sizes, bodies, store,
        )),
    }
}
