// Whether records are a well-formed tree (document 01, Refusal numbers: 16). One walk in reading order looks at each record once. A text's
// octets are looked at once; no other body is looked at but by its value's fields.
ghost use Rattle.std.specs.Prelude.{◌≡◌, false, ◌&&◌, [], ◌≤◌};
ghost use Rattle.std.proofs.Math.Option.{some};
ghost use Rattle.values.specs.Table.{known};
ghost use Rattle.text.specs.Text.{text};
ghost use Rattle.text.specs.Tokens.{shown_length};
ghost use Rattle.format.specs.Judge.{shown};
ghost use Rattle.format.specs.Calls.{places, tree_given};
ghost use Rattle.format.specs.Lent.{shared_lists};
ghost use Rattle.records.specs.Check.{is_given, held_as, placed_by, state_after, item_of, item_as, first_in, parent_at, walked, told};

use format::{Record, Records, Refusal, kind_of};
use octets::Characters;
use tags::{has_bit, is_allowed, is_short, is_within_depth, latest_of, stage_after, with_bit};
use text::{characters_of, tokens_of, weigh};
use values::{Kind, fits_kind, known_kind};

// The element whose items are looked at: its tag (0 above the top), the number of its record, and the depth of the items in it.
#[derive(Clone, Copy)]
pub struct Parent {
    pub tag: u8,
    pub number: usize,
    pub depth: u8,
}

// What the items so far left behind in their element: the stage of its order, and the bits of its attributes.
// Kept: the stage is a number, since rule 6 compares it, and what tags promises of stages is said of numbers (`latest_of`, `stage_after`).
#[derive(Clone, Copy)]
pub struct State {
    pub stage: u8,
    pub mask: u64,
}

// What a body holds that keeps its rules: octets, or items, which have records of their own.
#[derive(Clone, Copy)]
pub enum Held {
    Octets,
    Inner,
}

// What a good record is among the items of an element: past the last of them, or an item without or with items inside it, with what it leaves behind.
#[derive(Clone, Copy)]
pub enum Item {
    Past,
    Single(State),
    Nested(u8, State),
}

// Rules 10, 12 and 13 where there is no token table: a token octet is a fault of the text. CDATA alone may have a limit, and so it alone is weighed; no limit
// is as large as the most that is counted.
pub fn is_text_kept(parent: u8, tag: u8, body: &[u8]) -> bool
    ensures { result ≡ (text false body.now && shown parent tag (shown_length [] body.now)) }
{
    if tag != 1 {
        return text::check(body, false);
    }
    let none = &body[0..0];
    let marks = tokens_of(none);
    let shows = characters_of(none);
    let Some(weighed) = weigh(marks, &shows, body, Characters(32_769)) else {
        return false;
    };
    weighed.covered && is_short(parent, tag, weighed.shown)
}

fn check_kind(kind: Kind, parent: u8, tag: u8, body: &[u8]) -> Option<Held>
    ensures { result ≡ held_as parent tag body.now (some kind) }
{
    match kind {
        Kind::HoldsItems => Some(Held::Inner),
        Kind::HoldsTokens => None,
        Kind::HoldsText => is_text_kept(parent, tag, body).then_some(Held::Octets),
        Kind::HoldsPlain => Some(Held::Octets),
        Kind::HoldsTime | Kind::HoldsBearer | Kind::HoldsNumber(_) => {
            fits_kind(kind, body).then_some(Held::Octets)
        }
    }
}

// Rules 9 to 13; an unknown item and the token table break them.
fn check_body(parent: u8, tag: u8, body: &[u8]) -> Option<Held>
    ensures { result ≡ held_as parent tag body.now (known parent tag) }
{
    match known_kind(parent, tag) {
        None => None,
        Some(kind) => check_kind(kind, parent, tag, body),
    }
}

// Rules 4, 6, 7 and 8.
#[tactic(auto, unfolding(crate::specs::Check::placed_by))]
fn is_placed(parent: Parent, state: State, tag: u8) -> bool
    ensures { result ≡ placed_by parent state tag }
{
    is_allowed(parent.tag, tag)
        && state.stage <= latest_of(tag)
        && is_within_depth(tag, parent.depth)
        && !has_bit(state.mask, tag)
}

#[tactic(auto, unfolding(crate::specs::Check::state_after))]
fn state_after(parent: Parent, state: State, tag: u8) -> State
    ensures { result ≡ state_after parent state tag }
{
    let mask = with_bit(state.mask, tag);
    if parent.tag == 0 {
        return State { stage: 3, mask };
    }
    State {
        stage: stage_after(tag),
        mask,
    }
}

#[tactic(auto, unfolding(crate::specs::Check::item_of))]
fn item_of(held: Held, tag: u8, state: State) -> Item
    ensures { result ≡ item_of held tag state }
{
    match held {
        Held::Octets => Item::Single(state),
        Held::Inner => Item::Nested(tag, state),
    }
}

// A record among the items of an element, where it is good. A body's part may overlap others: it need only lie inside the lent octets.
fn check_record(given: Record, octets: &[u8], parent: Parent, state: State) -> Option<Item>
    ensures { result ≡ item_as parent state octets.now given }
{
    let tag = given.tag;
    if given.depth != parent.depth {
        return Some(Item::Past);
    }
    if given.kind != kind_of(tag) {
        return None;
    }
    if given.parent as usize != parent.number {
        return None;
    }
    let start = given.start as usize;
    let end = start + given.size as usize;
    if end > octets.len() {
        return None;
    }
    if !is_placed(parent, state, tag) {
        return None;
    }
    let held = check_body(parent.tag, tag, &octets[start..end])?;
    Some(item_of(held, tag, state_after(parent, state, tag)))
}

// Record `i`, of a tag, as the element around its own items, where it stands among those of another.
fn parent_at(parent: Parent, tag: u8, i: usize) -> Parent
    requires { parent.depth ≤ 16 }
    ensures { result ≡ parent_at parent tag i }
{
    Parent {
        tag,
        number: i,
        depth: parent.depth + 1,
    }
}

// The records of the items in one element, from a number on: the number of the first record past them, where all of them are good. Each turn looks at
// one record and goes on behind it, so that all turns together are as many as the records. An element below depth 16 is bad, so that the calls nest at
// most 17 deep. A record's fields are read here, where it is known that each list has it: by `Records::at` of format, which asks for nothing and so tests,
// an edit took 12 to 20 % longer.
fn check_items(
    count: usize,
    records: &Records,
    octets: &[u8],
    at: usize,
    parent: Parent,
) -> Option<usize>
    requires { (count ≤ places (shared_lists records.now)) × (at ≤ count) × (parent.depth ≤ 17) }
    ensures { result ≡ told (walked (shared_lists records.now) count octets.now (first_in parent) parent.number at) }
{
    let mut i = at;
    let mut state = State { stage: 0, mask: 0 };
    // Kept: a `for` is no plainer here, since an element's own records are passed by the call inside, which alone knows how many they are.
    while i < count {
        let given = Record {
            tag: records.tags[i],
            kind: records.kinds[i],
            depth: records.depths[i],
            parent: records.parents[i],
            start: records.starts[i],
            size: records.sizes[i],
        };
        match check_record(given, octets, parent, state)? {
            Item::Past => {
                return Some(i);
            }
            Item::Single(next) => {
                i = i + 1;
                state = next;
            }
            Item::Nested(tag, next) => {
                i = check_items(count, records, octets, i + 1, parent_at(parent, tag, i))?;
                state = next;
            }
        }
    }
    Some(i)
}

// Records in lists over lent octets are a well-formed tree: the walk from the top comes to the last of them.
pub fn is_well_formed(count: usize, records: &Records, octets: &[u8]) -> bool
    ensures { result ≡ is_given (tree_given count (shared_lists records.now) octets.now) }
{
    if count == 0 {
        return false;
    }
    if count > records.places() {
        return false;
    }
    let above = Parent {
        tag: 0,
        number: 0,
        depth: 1,
    };
    check_items(count, records, octets, 0, above) == Some(count)
}
