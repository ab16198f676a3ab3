// `remove`: an item of a tree in lent memory, gone with all below it.
ghost use Rattle.std.specs.Prelude.{◌≡◌};
ghost use Rattle.edits.specs.Tree.Edit.{remove as removal};
ghost use Rattle.edits.specs.Calls.{EditClaim};
ghost use Rattle.octets.specs.Numbers.{Octets as AreOctets};
ghost use Rattle.state.specs.Taking.{memory, shared_memory};
ghost use Rattle.edits.specs.Removal.{gap_in, ClosableIn, removal_of};

use crate::EditError;
use crate::extent::{end_of, sum_of};
use crate::moving::Move;
use crate::resite::{Gap, resite};
use format::{Refusal, at_or};
use octets::Octets;
use state::{Memory, added_by, held};

// The gap that record `number` of `n` leaves with all below it, where the tree takes `used` octets of the store.
fn gap_of(n: usize, number: usize, used: usize, memory: &Memory) -> Gap
    requires { ClosableIn n number (shared_memory memory.now) }
    ensures { result ≡ gap_in n number used (shared_memory memory.now) }
{
    let lists = memory.records;
    let next = end_of(n, lists.depths, number);
    let place = sum_of(lists.sizes, 0, number).0;
    let end = place + sum_of(lists.sizes, number, next).0;
    let element = lists.parents[number] as usize;
    let was = added_by(
        at_or(lists.tags, element, 0),
        lists.tags[number],
        lists.starts[number],
        lists.sizes[number],
        memory.store,
        memory.bodies[number],
    );
    let records = Move {
        from: next,
        end: n,
        to: number,
    };
    let octets = Move {
        from: end,
        end: used,
        to: place,
    };
    Gap {
        records,
        octets,
        element,
        was,
        is: Octets(0),
    }
}

// The gap that removing closes, where memory holds a tree with such a record below the top. Nothing is written.
fn plan_removal(n: usize, number: usize, memory: &Memory) -> Result<Gap, EditError>
    requires { AreOctets memory.now.store.now }
    ensures { result ≡ removal_of n number (shared_memory memory.now) }
{
    let Some(used) = held(n, memory) else {
        return Err(EditError::NoTree);
    };
    if number == 0 {
        return Err(EditError::NoPlace);
    }
    if number >= n {
        return Err(EditError::NoPlace);
    }
    Ok(gap_of(n, number, used, memory))
}

// Record `number` of `n` goes with all below it. The answer is how many records there are then, or the refusal: 16 where memory holds no tree, 18 where there is no such
// record below the top. On a refusal nothing is touched. Cost: what is behind the item moves once, in each list and in the store.
// Kept: the eight slices; `Memory` of state says what a struct of them to write in showed.
pub fn remove(
    n: usize,
    number: usize,
    tags: &mut [u8],
    kinds: &mut [u8],
    depths: &mut [u8],
    parents: &mut [u16],
    starts: &mut [u16],
    sizes: &mut [u16],
    bodies: &mut [u16],
    store: &mut [u8],
) -> Result<usize, Refusal>
    ensures { EditClaim (removal number) n (memory tags.old kinds.old depths.old parents.old starts.old sizes.old bodies.old store.old) (memory tags.new kinds.new depths.new parents.new starts.new sizes.new bodies.new store.new) result }
{
    let memory = Memory::of(tags, kinds, depths, parents, starts, sizes, bodies, store);
    let gap = plan_removal(n, number, &memory)?;
    resite(
        gap, tags, kinds, depths, parents, starts, sizes, bodies, store,
    );
    let gone = gap.records.from - number;
    Ok(n - gone)
}
