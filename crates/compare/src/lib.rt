// Whether two objects mean the same, whether an object is its own normal form, and what both stand on: two texts under two token tables, two values of a kind,
// attributes and CDATA of two elements. No memory is lent, so no object is refused for want of room. No call asks anything of its arguments.
// Cost: both objects are judged; then each item is stepped over a few times, and each octet of an expansion is gone through once.
#![tactic(auto)]

ghost use Rattle.std.specs.Prelude.{◌≡◌};
ghost use Rattle.format.specs.Judge.{judge};
ghost use Rattle.format.specs.Same.{same_answer, is_normal};
ghost use Rattle.compare.specs.Items.{Compared};

mod bodies;
mod items;
mod normal;
mod steps;
mod texts;
mod walks;

use crate::normal::are_items_normal;
pub use bodies::{same_bodies, same_octets};
use format::SameRefusal;
pub use items::{
    find_counted, same_attribute, same_attributes, same_cdata, same_child, same_children,
};
use judge::judge;
pub use normal::is_own;
use survey::table_of;
use text::index_of;
pub use texts::same_texts;
pub use walks::{Child, next_child};

// Two objects that are accepted. Each stands for the items of an element with the tag 0, whose one item is the top, at depth 1 of 16.
fn compare_accepted(a: &[u8], b: &[u8]) -> bool
    ensures { Compared a.now b.now result }
{
    let table_a = table_of(a);
    let table_b = table_of(b);
    let index_a = index_of(table_a);
    let index_b = index_of(table_b);
    same_children(16, &index_a, table_a, a, &index_b, table_b, b)
}

// Refused: 1 to 13 of the first object, then 1 to 13 of the second. Else whether they mean the same. Most objects that are compared are octet for octet the
// same, and then the second needs no look of its own.
pub fn same(a: &[u8], b: &[u8]) -> Result<bool, SameRefusal>
    ensures { result ≡ same_answer (judge a.now) (judge b.now) }
{
    match judge(a) {
        Err(refusal) => Err(SameRefusal::First(refusal)),
        Ok(_) => {
            if same_octets(a, b) {
                return Ok(true);
            }
            match judge(b) {
                Err(refusal) => Err(SameRefusal::Second(refusal)),
                Ok(_) => Ok(compare_accepted(a, b)),
            }
        }
    }
}

// Whether the object is accepted and its own normal form.
pub fn is_normal(object: &[u8]) -> bool
    ensures { result ≡ is_normal object.now }
{
    match judge(object) {
        Err(_) => false,
        Ok(_) => are_items_normal(0, object),
    }
}
