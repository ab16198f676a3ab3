// The token table of the words that are kept: tags rise in their order.
ghost use Rattle.std.specs.Prelude.{◌≡◌, ◌∷◌, ◌+◌, ◌≤◌, ◌<◌, length, get_or, take, drop};
ghost use Rattle.std.proofs.lemmas.List.Edits.{sets};
ghost use Rattle.fold.specs.Packed.{tokens};
ghost use Rattle.packer.specs.Ranks.{listed, Kept};
ghost use Rattle.packer.specs.Counting.{AllInside};
ghost use Rattle.packer.specs.Tables.{Tabled};

use crate::laying::put_octets;
use crate::ranking::Best;

// The token octet of a number.
#[tactic(auto, using(crate::proofs::Made::token_ways))]
fn token_at(i: usize) -> u8
    requires { i < 16 }
    ensures { result ≡ get_or tokens i 0 }
{
    if i < 8 {
        return (i + 1) as u8;
    }
    if i < 10 {
        return (i + 3) as u8;
    }
    (i + 4) as u8
}

// One entry at a place of the table, and the place after it.
fn put_entry(
    object: &[u8],
    tag: u8,
    start: usize,
    size: usize,
    table: &mut [u8],
    at: usize,
) -> usize
    requires size_in_bounds { start + size ≤ length object.now }
    requires size_bound { size ≤ 255 }
    requires size_in_bounds_2 { at + 2 + size ≤ length table.old }
    ensures value { result ≡ at + 2 + size }
    ensures table_after { table.new ≡ sets table.old at (tag ∷ size ∷ take size (drop start object.now)) }
{
    let end = start + size;
    let from = at + 2;
    table[at] = tag;
    table[at + 1] = size as u8;
    put_octets(table, from, &object[start..end])
}

pub fn make_table(object: &[u8], best: Best, table: &mut [u8]) -> usize
    requires kept { Kept best }
    requires all_inside { AllInside object.now (listed best) }
    requires in_bounds { 4_112 ≤ length table.old }
    ensures { Tabled object.now best table.old table.new result }
{
    let words = best.words;
    let count = best.count;
    let mut at: usize = 0;
    for i in 0..count {
        let word = words[i];
        at = put_entry(object, token_at(i), word.start, word.size, table, at);
    }
    at
}
