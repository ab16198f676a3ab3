// The call: all refusals, then the result into the room, and from there into lists and store, as taking it in leaves it.
ghost use Rattle.std.specs.Prelude.{◌≤◌, ◌<◌, length};
ghost use Rattle.state.specs.Taking.{memory};
ghost use Rattle.merge.specs.Calls.{MergeClaim};
ghost use Rattle.merging.specs.Takes.{most};
ghost use Rattle.merging.specs.Deciding.{Decided, Fills};

use crate::find_conflict;
use crate::object::{fit, put_object};
use edits::{places_in, take_in};
use format::Records;
use merge::{MergeRefusal, Merged, Services};
use octets::Octets;

// What the call answers of two objects, by the sizes of what is lent. The room is only measured against.
fn decide(
    by: Services,
    basic: &[u8],
    advanced: &[u8],
    places: usize,
    store: Octets,
    room: &mut [u8],
) -> Result<Merged, MergeRefusal>
    requires places_lt_most { places < most }
    requires store_lt_most { store.0 < most }
    ensures { Decided by basic.now advanced.now places store room.old room.new result }
{
    find_conflict(by, basic, advanced)?;
    let needs = put_object(room, by, basic, advanced, false);
    fit(needs, places, store, Octets(room.len()))
}

// The result, which has so many octets, into the room, and taken in from there.
fn fill(
    by: Services,
    basic: &[u8],
    advanced: &[u8],
    size: usize,
    tags: &mut [u8],
    kinds: &mut [u8],
    depths: &mut [u8],
    parents: &mut [u16],
    starts: &mut [u16],
    sizes: &mut [u16],
    bodies: &mut [u16],
    store: &mut [u8],
    room: &mut [u8],
)
    requires { size ≤ length room.old }
    ensures { Fills by basic.now advanced.now size (memory tags.old kinds.old depths.old parents.old starts.old sizes.old bodies.old store.old) (memory tags.new kinds.new depths.new parents.new starts.new sizes.new bodies.new store.new) room.old room.new }
{
    let _needs = put_object(room, by, basic, advanced, true);
    let most = Octets(room.len());
    let _taken = take_in(
        &room[0..size],
        tags,
        kinds,
        depths,
        parents,
        starts,
        sizes,
        bodies,
        store,
        most,
    );
}

// Refused: 1 to 13 of Basic, then of Advanced, then 20 and 21, then 14 where the records of the result have no places, then 15 where its texts and values
// don't fit the store or its normal form the room or an object. Else the room has its normal form, and lists and store have it as taking in that normal form
// leaves it.
// Kept: eight slices to write in, and no struct of them, for the C interface (`spi_merge`): state's `Memory` says why.
pub fn merge(
    by: Services,
    basic: &[u8],
    advanced: &[u8],
    tags: &mut [u8],
    kinds: &mut [u8],
    depths: &mut [u8],
    parents: &mut [u16],
    starts: &mut [u16],
    sizes: &mut [u16],
    bodies: &mut [u16],
    store: &mut [u8],
    room: &mut [u8],
) -> Result<Merged, MergeRefusal>
    ensures { MergeClaim by basic.now advanced.now (memory tags.old kinds.old depths.old parents.old starts.old sizes.old bodies.old store.old) (memory tags.new kinds.new depths.new parents.new starts.new sizes.new bodies.new store.new) room.old room.new result }
{
    let records = Records {
        tags: &*tags,
        kinds: &*kinds,
        depths: &*depths,
        parents: &*parents,
        starts: &*starts,
        sizes: &*sizes,
    };
    let places = places_in(&records, bodies);
    let merged = decide(by, basic, advanced, places, Octets(store.len()), room)?;
    fill(
        by,
        basic,
        advanced,
        merged.size.0,
        tags,
        kinds,
        depths,
        parents,
        starts,
        sizes,
        bodies,
        store,
        room,
    );
    Ok(merged)
}
