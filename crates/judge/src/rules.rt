// The rules of one item, 2 to 13, by rising number, but for the late 12 (late.rt). Beside the token table in force go its marks and how many characters each
// token shows, so that the table itself is not gone through again for a text.
ghost use Rattle.std.specs.Prelude.{◌≡◌, ◌&&◌, ◌||◌, ◌+◌, ◌≤◌, eqb, ltb, length};
ghost use Rattle.std.proofs.Math.Option.{some};
ghost use Rattle.text.specs.Tokens.{entries};
ghost use Rattle.values.specs.Table.{attribute};
ghost use Rattle.values.specs.declared.Kind.TheVariants.{HoldsText};
ghost use Rattle.format.specs.Judge.{is_known, is_top, shown, kind_rules};
ghost use Rattle.values.specs.Calls.{known_kind};
ghost use Rattle.tags.specs.Rules.{within_depth, has_bit};
ghost use Rattle.judge.specs.Says.{depth_of, as_kind, sorted, bare, InForce, checked, after, ItemSays, Framed, OwnIs, Says};

use crate::{Item, Progress, Sort};
use format::{Refusal, refuse};
use octets::{Characters, read_header};
use tags::{
    has_bit, is_allowed, is_short, is_top, is_within_depth, latest_of, stage_after, with_bit,
};
use text::{is_table, weigh};
use values::{Kind, fits_kind, is_attribute, known_kind, wrong_field};

// Rule 5: octets after the top.
fn trails(parent: u8, whole: usize, room: usize) -> bool
    ensures { result ≡ (eqb parent 0 && ltb whole room) }
{
    parent == 0 && whole < room
}

// Rule 7 where so many levels of elements are left: while there is one, any item may stand, and at depth 17 there is none.
#[tactic(auto, unfolding(crate::specs::Says::depth_of))]
fn has_level(tag: u8, left: u8) -> bool
    ensures { result ≡ within_depth tag (depth_of left) }
{
    left > 0 || is_within_depth(tag, 17)
}

// One of the top's own attributes.
fn is_of_top(parent: u8, tag: u8) -> bool
    ensures { result ≡ attribute tag && is_top parent }
{
    is_attribute(tag) && is_top(parent)
}

// Rule 12 where it isn't late: the top's own attributes wait, and in any other text each token octet has an entry.
fn is_held(parent: u8, tag: u8, covered: bool) -> bool
    ensures { result ≡ ((attribute tag && is_top parent) || covered) }
{
    is_of_top(parent, tag) || covered
}

// Rules 10, 12 and 13, for text, in one look at it. No limit of rule 13 is as large as the most that is counted.
fn check_text(
    parent: u8,
    tag: u8,
    place: usize,
    table: &[u8],
    marks: u32,
    shows: &[u8; 32],
    body: &[u8],
) -> Result<(), Refusal>
    requires { InForce table.now marks shows.now }
    ensures { checked result ≡ kind_rules (bare parent (entries table.now)) place tag body.now (some HoldsText) }
{
    let Some(weighed) = weigh(marks, shows, body, Characters(32_769)) else {
        return Err(refuse(10, place));
    };
    if !is_held(parent, tag, weighed.covered) {
        return Err(refuse(12, place));
    }
    if !is_short(parent, tag, weighed.shown) {
        return Err(refuse(13, place));
    }
    Ok(())
}

// Rules 9 to 13, for a kind. Items, tokens, text and plain octets are always values of their kind, so rule 9 is asked of the others alone.
fn check_kind(
    kind: Kind,
    parent: u8,
    tag: u8,
    place: usize,
    table: &[u8],
    marks: u32,
    shows: &[u8; 32],
    body: &[u8],
) -> Result<(), Refusal>
    requires { InForce table.now marks shows.now }
    ensures { checked result ≡ kind_rules (bare parent (entries table.now)) place tag body.now (some kind) }
{
    match kind {
        Kind::HoldsItems => Ok(()),
        Kind::HoldsTokens => {
            if is_table(body) {
                return Ok(());
            }
            Err(refuse(11, place))
        }
        Kind::HoldsText => check_text(parent, tag, place, table, marks, shows, body),
        Kind::HoldsPlain => Ok(()),
        _ => {
            if fits_kind(kind, body) {
                return Ok(());
            }
            Err(Refusal {
                number: 9,
                place,
                field: wrong_field(kind, body),
            })
        }
    }
}

// Rules 9 to 13: an unknown item isn't looked into.
fn check_body(
    known: Option<Kind>,
    parent: u8,
    tag: u8,
    place: usize,
    table: &[u8],
    marks: u32,
    shows: &[u8; 32],
    body: &[u8],
) -> Result<(), Refusal>
    requires { InForce table.now marks shows.now }
    ensures { checked result ≡ kind_rules (bare parent (entries table.now)) place tag body.now (as_kind known) }
{
    match known {
        None => Ok(()),
        Some(kind) => check_kind(kind, parent, tag, place, table, marks, shows, body),
    }
}

// Rule 8: a known attribute twice.
#[tactic(auto, unfolding(format::specs::Judge::is_known, crate::specs::Says::as_kind))]
fn is_twice(known: Option<Kind>, tag: u8, mask: u64) -> bool
    ensures { result ≡ (is_known (as_kind known) && has_bit mask tag) }
{
    match known {
        None => false,
        Some(_) => has_bit(mask, tag),
    }
}

// Rules 6 to 13.
fn check_item(
    known: Option<Kind>,
    parent: u8,
    tag: u8,
    left: u8,
    progress: Progress,
    place: usize,
    table: &[u8],
    marks: u32,
    shows: &[u8; 32],
    body: &[u8],
) -> Result<(), Refusal>
    requires known_value { known ≡ known_kind parent tag }
    requires in_force { InForce table.now marks shows.now }
    ensures { ItemSays parent tag left progress place table.now body.now result }
{
    if latest_of(tag) < progress.stage {
        return Err(refuse(6, place));
    }
    if !has_level(tag, left) {
        return Err(refuse(7, place));
    }
    if is_twice(known, tag, progress.mask) {
        return Err(refuse(8, place));
    }
    check_body(known, parent, tag, place, table, marks, shows, body)
}

#[tactic(auto, unfolding(crate::specs::Says::sorted, crate::specs::Says::as_kind))]
fn sort_of(known: Option<Kind>) -> Sort
    ensures { result ≡ sorted (as_kind known) }
{
    match known {
        None => Sort::Skip,
        Some(kind) => match kind {
            Kind::HoldsItems => Sort::Element,
            Kind::HoldsTokens => Sort::Table,
            _ => Sort::Leaf,
        },
    }
}

#[tactic(auto, unfolding(crate::specs::Says::after))]
fn progress_after(tag: u8, progress: Progress) -> Progress
    ensures { result ≡ after tag progress }
{
    Progress {
        stage: stage_after(tag),
        mask: with_bit(progress.mask, tag),
    }
}

// Rules 3 to 13 of the first item of a part, whose header was read.
fn judge_framed(
    rest: &[u8],
    start: usize,
    size: usize,
    place: usize,
    parent: u8,
    left: u8,
    progress: Progress,
    table: &[u8],
    marks: u32,
    shows: &[u8; 32],
) -> Result<Item, Refusal>
    requires framed { Framed rest.now start size × (place + length rest.now ≤ 32_768) }
    requires in_force { InForce table.now marks shows.now }
    ensures { Says (OwnIs parent left progress table.now place rest.now) parent progress rest.now result }
{
    if rest.len() - start < size {
        return Err(refuse(3, place));
    }
    let tag = rest[0];
    if !is_allowed(parent, tag) {
        return Err(refuse(4, place));
    }
    let to = start + size;
    if trails(parent, to, rest.len()) {
        return Err(refuse(5, place + to));
    }
    let known = known_kind(parent, tag);
    check_item(
        known,
        parent,
        tag,
        left,
        progress,
        place,
        table,
        marks,
        shows,
        &rest[start..to],
    )?;
    Ok(Item {
        sort: sort_of(known),
        start,
        size,
        next: progress_after(tag, progress),
    })
}

// Rules 2 to 13 of the first item of a part.
pub fn judge_own(
    rest: &[u8],
    place: usize,
    parent: u8,
    left: u8,
    progress: Progress,
    table: &[u8],
    marks: u32,
    shows: &[u8; 32],
) -> Result<Item, Refusal>
    requires rest_bound { place + length rest.now ≤ 32_768 }
    requires in_force { InForce table.now marks shows.now }
    ensures { Says (OwnIs parent left progress table.now place rest.now) parent progress rest.now result }
{
    let Some(body) = read_header(rest) else {
        return Err(refuse(2, place));
    };
    judge_framed(
        rest, body.start, body.size, place, parent, left, progress, table, marks, shows,
    )
}
