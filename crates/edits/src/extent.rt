// How many records an item has with all below it, and how much of the store records take.
ghost use Rattle.std.specs.Prelude.{◌≡◌, suc, ◌+◌, ◌≤◌, ◌<◌, length, get_or};
ghost use Rattle.octets.specs.Places.{between};
ghost use Rattle.edits.specs.Extents.{deeper, sum_of};

use octets::Octets;

// The number of the first record behind an item: the first later one that isn't deeper.
pub fn end_of(n: usize, depths: &[u8], number: usize) -> usize
    requires { (number < n) × (n ≤ length depths.now) }
    ensures { result ≡ suc number + deeper (get_or depths.now number 0) (between depths.now (suc number) n) }
{
    let depth = depths[number];
    for j in number + 1..n {
        if depths[j] <= depth {
            return j;
        }
    }
    n
}

// What the records from a number up to another take of the store: one that holds items has the size 0.
pub fn sum_of(sizes: &[u16], first: usize, last: usize) -> Octets
    requires { (first ≤ last) × (last ≤ length sizes.now) × (sum_of (between sizes.now first last) ≤ 65_535) }
    ensures { result.0 ≡ sum_of (between sizes.now first last) }
{
    let mut total: usize = 0;
    for size in &sizes[first..last] {
        total += *size as usize;
    }
    Octets(total)
}
