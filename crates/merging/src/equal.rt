// What is asked of the child elements of a part, one after the other: whether one of them means what another element means, and whether 0x06 is among them.
ghost use Rattle.std.specs.Prelude.{◌≡◌};
ghost use Rattle.text.specs.Index.{entries_by};
ghost use Rattle.merging.specs.Among.{is_equal, equal_in, language_in};

use crate::children::any_child;
use compare::same_child;

// Two elements of any tags with these bodies. `levels` as `same_child` has it.
fn is_same(
    tag: u8,
    other: u8,
    levels: usize,
    index_a: &[usize; 32],
    table_a: &[u8],
    a: &[u8],
    index_b: &[usize; 32],
    table_b: &[u8],
    b: &[u8],
) -> bool
    ensures { result ≡ is_equal levels (entries_by index_a.now table_a.now) tag a.now (entries_by index_b.now table_b.now) other b.now }
{
    if tag != other {
        return false;
    }
    same_child(tag, levels, index_a, table_a, a, index_b, table_b, b)
}

// Among the child elements of a part is one that means what an element of a tag with a body means.
pub fn has_equal(
    tag: u8,
    levels: usize,
    index_a: &[usize; 32],
    table_a: &[u8],
    a: &[u8],
    index_b: &[usize; 32],
    table_b: &[u8],
    part: &[u8],
) -> bool
    ensures { result ≡ equal_in levels (entries_by index_a.now table_a.now) tag a.now (entries_by index_b.now table_b.now) part.now }
{
    any_child(part, |other, body| {
        is_same(
            tag, other, levels, index_a, table_a, a, index_b, table_b, body,
        )
    })
}

// Among the child elements of a part is a default language.
pub fn has_language(part: &[u8]) -> bool
    ensures { result ≡ language_in part.now }
{
    any_child(part, |tag, _| tag == 6)
}
