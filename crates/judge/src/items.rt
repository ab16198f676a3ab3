// The items of an element, in order, and the elements among them, to a depth of 16.
ghost use Rattle.std.specs.Prelude.{◌≡◌, ◌&&◌, [], ◌+◌, ◌-◌, ◌≤◌, ◌<◌, eqb, length, take, drop};
ghost use Rattle.text.specs.Tokens.{entries};
ghost use Rattle.format.specs.Judge.{is_top, read};
ghost use Rattle.format.specs.Headers.{headers};
ghost use Rattle.judge.specs.Says.{ctx, InForce, depth_of, table_sort, BehindIs, AllIs, Says, record_more, counted, EndSays, AtMost, CountsAtMost, CountsAs};

use crate::late::{hold_attributes, is_due_before, is_waiting, judge_late};
use crate::rules::judge_own;
use crate::{Item, Progress, Sort};
use format::{Counts, Refusal};
use text::{characters_of, tokens_of};

// The late rule is judged just after the table.
#[tactic(auto, unfolding(crate::specs::Says::table_sort))]
fn is_due_after(sort: Sort, parent: u8, stage: u8) -> bool
    ensures { result ≡ (table_sort sort && (is_top parent && eqb stage 0)) }
{
    match sort {
        Sort::Table => is_waiting(parent, stage),
        Sort::Skip | Sort::Leaf | Sort::Element => false,
    }
}

// The item at `at`: its own rules, and the late rule where it is the table.
fn judge_item(
    part: &[u8],
    at: usize,
    base: usize,
    parent: u8,
    left: u8,
    progress: Progress,
    table: &[u8],
    marks: u32,
    shows: &[u8; 32],
) -> Result<Item, Refusal>
    requires part_bound { (base + length part.now ≤ 32_768) × (at < length part.now) }
    requires in_force { InForce table.now marks shows.now }
    ensures { Says (BehindIs parent left progress table.now base at part.now) parent progress (drop at part.now) result }
{
    let item = judge_own(
        &part[at..],
        base + at,
        parent,
        left,
        progress,
        table,
        marks,
        shows,
    )?;
    let from = at + item.start;
    let to = from + item.size;
    let due = is_due_after(item.sort, parent, progress.stage);
    judge_late(due, part, at, parent, base, &part[from..to])?;
    Ok(item)
}

// All that is judged at the item at `at`: where it is neither attribute nor table, the late rule comes first, without a table.
fn read_item(
    part: &[u8],
    at: usize,
    base: usize,
    parent: u8,
    left: u8,
    progress: Progress,
    table: &[u8],
    marks: u32,
    shows: &[u8; 32],
) -> Result<Item, Refusal>
    requires part_bound { (base + length part.now ≤ 32_768) × (at < length part.now) }
    requires in_force { InForce table.now marks shows.now }
    ensures { Says (AllIs parent left progress table.now base at part.now) parent progress (drop at part.now) result }
{
    let due = is_due_before(parent, progress.stage, part[at]);
    judge_late(due, part, at, parent, base, &part[0..0])?;
    judge_item(part, at, base, parent, left, progress, table, marks, shows)
}

// The end of the items of an element: the late rule, where it still waits.
fn end_items(
    counts: Counts,
    part: &[u8],
    at: usize,
    parent: u8,
    stage: u8,
    base: usize,
) -> Result<Counts, Refusal>
    requires { (base + length part.now ≤ 32_768) × (at ≤ length part.now) }
    ensures end_says { EndSays counts part.now at parent stage base result }
    ensures counts_as { CountsAs counts result }
{
    if is_waiting(parent, stage) {
        match hold_attributes(part, at, parent, base, &part[0..0]) {
            Err(refusal) => {
                return Err(refusal);
            }
            Ok(()) => {
                return Ok(counts);
            }
        }
    }
    Ok(counts)
}

// The items of a part, which begins at the place `base` of the object and is the body of an element with the tag `parent`, or the object (0).
// So many levels of elements may still begin in it. `counts` is what was counted so far, `table` the token table in force, with its marks and what each of its
// tokens shows. A turn of the loop is no function of its own: for each item it would hand back through memory all that is in force behind it, 32 octets among it.
#[cycle(read_element_read_items)]
pub fn read_items<'a>(
    part: &'a [u8],
    base: usize,
    parent: u8,
    left: u8,
    counts: Counts,
    table: &'a [u8],
    marks: u32,
    shows: &[u8; 32],
) -> Result<Counts, Refusal>
    requires part_bound { (base + length part.now ≤ 32_768) × AtMost base counts × (left ≤ 16) }
    requires in_force { InForce table.now marks shows.now }
    ensures value { result ≡ counted counts (headers parent part.now) (read (ctx parent (depth_of left) 0 [] (entries table.now) []) base part.now) }
    ensures counts_at_most { CountsAtMost (base + length part.now) result }
{
    let mut at: usize = 0;
    let mut progress = Progress { stage: 0, mask: 0 };
    let mut counts = counts;
    let mut table: &'a [u8] = table;
    let mut marks = marks;
    let mut shows: [u8; 32] = *shows;
    while at < part.len() {
        let item = read_item(part, at, base, parent, left, progress, table, marks, &shows)?;
        let tag = part[at];
        let from = at + item.start;
        at = from + item.size;
        progress = item.next;
        counts.items = counts.items + 1;
        match item.sort {
            Sort::Skip => {}
            Sort::Leaf => {
                counts.records = counts.records + 1;
            }
            Sort::Table => {
                table = &part[from..at];
                marks = tokens_of(table);
                shows = characters_of(table);
            }
            Sort::Element => {
                counts = read_element(
                    part, from, at, base, tag, left, counts, table, marks, &shows,
                )?;
            }
        }
    }
    end_items(counts, part, at, parent, progress.stage, base)
}

// An element, whose body lies in the part from `from` up to `to`: its items are read within that middle part and see nothing behind it. The
// element itself is counted before them.
#[cycle(read_element_read_items)]
fn read_element<'a>(
    part: &'a [u8],
    from: usize,
    to: usize,
    base: usize,
    tag: u8,
    left: u8,
    counts: Counts,
    table: &'a [u8],
    marks: u32,
    shows: &[u8; 32],
) -> Result<Counts, Refusal>
    requires from_le_to { (from ≤ to) × (to ≤ length part.now) × (base + length part.now ≤ 32_768) × AtMost (base + from) (record_more counts) × (0 < left) × (left ≤ 16) }
    requires in_force { InForce table.now marks shows.now }
    ensures value { result ≡ counted (record_more counts) (headers tag (take (to - from) (drop from part.now))) (read (ctx tag (depth_of (left - 1)) 0 [] (entries table.now) []) (base + from) (take (to - from) (drop from part.now))) }
    ensures counts_at_most { CountsAtMost (base + to) result }
{
    let mut counts = counts;
    counts.records = counts.records + 1;
    read_items(
        &part[from..to],
        base + from,
        tag,
        left - 1,
        counts,
        table,
        marks,
        shows,
    )
}
