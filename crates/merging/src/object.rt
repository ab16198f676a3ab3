// Two accepted objects merged: how much the result takes, or its octets in the room; and whether it fits what is lent.
ghost use Rattle.merging.specs.Walks.{ObjectPut};
ghost use Rattle.merging.specs.Deciding.{FitTold};

use crate::counting::Needs;
use crate::neither;
use crate::partners::Role;
use crate::walk::put_children;
use merge::{MergeRefusal, Merged, Services};
use octets::Octets;
use survey::table_of;
use text::index_of;

// The objects themselves count as elements with the tag 0, whose one child is the top, at depth 1 of 16. Of objects that aren't accepted nothing is said.
pub fn put_object(out: &mut [u8], by: Services, basic: &[u8], advanced: &[u8], emit: bool) -> Needs
    ensures { ObjectPut emit by basic.now advanced.now out.old out.new result }
{
    let table_a = table_of(basic);
    let table_b = table_of(advanced);
    let index_a = index_of(table_a);
    let index_b = index_of(table_b);
    let none = Needs {
        records: 0,
        store: Octets(0),
        octets: Octets(0),
    };
    put_children(
        out,
        none,
        Role::Own,
        by,
        16,
        &index_a,
        table_a,
        basic,
        &index_b,
        table_b,
        advanced,
        emit,
    )
}

// A result that takes so much, held against what is lent: places for records, octets of a store and of a room.
pub fn fit(needs: Needs, places: usize, store: Octets, room: Octets) -> Result<Merged, MergeRefusal>
    ensures { FitTold needs places store room result }
{
    if needs.records > places {
        return Err(neither(14));
    }
    if needs.store.0 > store.0 {
        return Err(neither(15));
    }
    if needs.octets.0 > 32_768 {
        return Err(neither(15));
    }
    if needs.octets.0 > room.0 {
        return Err(neither(15));
    }
    Ok(Merged {
        records: needs.records,
        size: needs.octets,
    })
}
