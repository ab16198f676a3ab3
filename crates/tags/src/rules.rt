// What a tag alone says, by the tag of the element in which its item stands (0 for the object).
ghost use Rattle.std.specs.Prelude.{◌≡◌};
ghost use Rattle.format.specs.Judge.{allowed, is_top, latest, stage_after, shown};
ghost use Rattle.tags.specs.Rules.{within_depth};

use octets::Characters;
use values::is_attribute;

// epg or serviceInformation.
#[tactic(auto, unfolding(format::specs::Judge::is_top))]
pub fn is_top(tag: u8) -> bool
    ensures { result ≡ is_top tag }
{
    tag == 2 || tag == 3
}

// Rule 4.
#[tactic(auto, unfolding(format::specs::Judge::allowed))]
pub fn is_allowed(parent: u8, tag: u8) -> bool
    ensures { result ≡ allowed parent tag }
{
    let top = is_top(tag);
    if parent == 0 {
        return top;
    }
    tag != 0 && !top && (is_top(parent) || (tag != 4 && tag != 6))
}

// Rule 6: the last stage at which an item may come,
#[tactic(auto, unfolding(format::specs::Judge::latest))]
pub fn latest_of(tag: u8) -> u8
    ensures { result ≡ latest tag }
{
    if is_attribute(tag) || tag == 4 {
        return 0;
    }
    if tag == 6 { 1 } else { 2 }
}

// and the stage after it.
#[tactic(auto, unfolding(format::specs::Judge::stage_after))]
pub fn stage_after(tag: u8) -> u8
    ensures { result ≡ stage_after tag }
{
    if is_attribute(tag) {
        return 0;
    }
    match tag {
        4 => 1,
        1 => 3,
        _ => 2,
    }
}

// Rule 7: elements stand no deeper than 16. Attributes and CDATA of such an element are one deeper.
pub fn is_within_depth(tag: u8, depth: u8) -> bool
    ensures { result ≡ within_depth tag depth }
{
    is_attribute(tag) || tag == 1 || depth <= 16
}

// Rule 13: CDATA of which so many characters are shown keeps to the limit of its element. Other text has none.
#[tactic(auto, unfolding(format::specs::Judge::shown, format::specs::Judge::limit, format::specs::Judge::not_above))]
pub fn is_short(parent: u8, tag: u8, count: Characters) -> bool
    ensures { result ≡ shown parent tag count }
{
    if tag != 1 {
        return true;
    }
    match parent {
        0x10 => count.0 <= 8,
        0x11 => count.0 <= 16,
        0x12 => count.0 <= 128,
        0x1A => count.0 <= 180,
        0x1B => count.0 <= 1_200,
        _ => true,
    }
}
