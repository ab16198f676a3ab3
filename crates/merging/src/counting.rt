// What a part of the result takes, counted on its way. A count that would come to 2^63 or more stays there: no lent slice is as long, so it fits nowhere.
ghost use Rattle.std.specs.Prelude.{◌≡◌, ◌+◌, ◌-◌, min};
ghost use Rattle.merging.specs.Takes.{most, plus};

use octets::Octets;

const MOST: usize = 0x8000_0000_0000_0000;

// How much the result takes as far as the walk has come: records, octets of a store, octets of its normal form.
#[derive(Clone, Copy)]
pub struct Needs {
    pub records: usize,
    pub store: Octets,
    pub octets: Octets,
}

// The sum of two counts.
fn sum(a: usize, b: usize) -> usize
    ensures { result ≡ min most (a + b) }
{
    a.saturating_add(b).min(MOST)
}

// More of each.
pub fn add(needs: Needs, records: usize, store: Octets, octets: Octets) -> Needs
    ensures { result ≡ plus needs records store.0 octets.0 }
{
    let stored = Octets(sum(needs.store.0, store.0));
    let written = Octets(sum(needs.octets.0, octets.0));
    Needs {
        records: sum(needs.records, records),
        store: stored,
        octets: written,
    }
}

// No more of any.
pub fn keep(needs: Needs) -> Needs
    ensures { result ≡ plus needs 0 0 0 }
{
    add(needs, 0, Octets(0), Octets(0))
}

// A count that stays at the most that is counted.
pub fn stopped(size: Octets) -> Octets
    ensures { result.0 ≡ min most size.0 }
{
    Octets(size.0.min(MOST))
}

// How far a count lies above another; 0 where it doesn't.
pub fn excess(count: Octets, other: Octets) -> Octets
    ensures { result.0 ≡ count.0 - other.0 }
{
    Octets(count.0.saturating_sub(other.0))
}
