// Two objects merged (request 2026-10), a Basic and an Advanced one: the normal form of what they become is written to a file.
ghost use Rattle.std.specs.Prelude.{◌≤◌, length, IfOk};

use crate::files::{argument, file_argument, load, save};
use crate::lines::{both_refused, refused, say_merged};
use crate::memory::{FILE, Memory, NAME, OBJECT, TREE_PLACES};
use crate::status::{Ended, Stop};
use merge::{MergeRefusal, Services};

// The argument that names Basic: one further where an option stands before it. Advanced and OUT are the next two.
pub fn basic_argument(by: Services) -> usize
    ensures { result ≤ 3 }
{
    match by {
        Services::ByTag => 2,
        Services::ByBearers => 3,
    }
}

// What two objects are merged into, in a lent room. There are places for all records of both, and the store of a normal form is no larger than it, so that
// only a result above the limit of an object is refused for its size.
fn merged_form<'a>(
    by: Services,
    basic: &[u8],
    advanced: &[u8],
    lent: &'a mut [u8],
) -> Result<&'a [u8], MergeRefusal>
    ensures { IfOk result (λ octets. length octets.now ≤ length lent.old) }
{
    let mut memory = Memory::<TREE_PLACES>::new();
    let merged = merging::merge(
        by,
        basic,
        advanced,
        &mut memory.tags,
        &mut memory.kinds,
        &mut memory.depths,
        &mut memory.parents,
        &mut memory.starts,
        &mut memory.sizes,
        &mut memory.bodies,
        &mut memory.store,
        lent,
    )?;
    Ok(&lent[..merged.size.0])
}

// The line of a refusal names the file that is refused, or both.
fn unmerged(rt: &HostRuntime, first: &[u8], second: &[u8], refusal: MergeRefusal) -> Stop {
    match refusal {
        MergeRefusal::Basic(refusal) => refused(rt, first, refusal),
        MergeRefusal::Advanced(refusal) => refused(rt, second, refusal),
        MergeRefusal::Neither(refusal) => both_refused(rt, first, second, refusal),
    }
}

// A merged object to the file that an argument names.
fn save_merged(
    rt: &HostRuntime,
    i: usize,
    first: &[u8],
    basic: &[u8],
    second: &[u8],
    advanced: &[u8],
    merged: &[u8],
) -> Ended {
    let mut name = [0u8; NAME];
    let out = argument(rt, i, &mut name);
    save(rt, out, merged)?;
    say_merged(
        rt,
        first,
        basic.len(),
        second,
        advanced.len(),
        merged.len(),
        out,
    );
    Ok(())
}

// Two objects of files that are named.
fn merge_both(
    rt: &HostRuntime,
    by: Services,
    first: &[u8],
    basic: &[u8],
    second: &[u8],
    advanced: &[u8],
) -> Ended {
    let mut room = [0u8; OBJECT];
    let merged = merged_form(by, basic, advanced, &mut room).map_err(|refusal| unmerged(
        rt, first, second, refusal,
    ))?;
    save_merged(
        rt,
        basic_argument(by) + 2,
        first,
        basic,
        second,
        advanced,
        merged,
    )
}

// A Basic object merged with that in the file that the next argument names.
pub fn merge_with(rt: &HostRuntime, by: Services, first: &[u8], basic: &[u8]) -> Ended {
    let mut name = [0u8; NAME];
    let mut room = [0u8; FILE];
    let second = file_argument(rt, basic_argument(by) + 1, &mut name)?;
    let advanced = load(rt, second, &mut room)?;
    merge_both(rt, by, first, basic, second, advanced)
}
