// The judgement of an object, and of items by themselves.
#![tactic(auto)]

ghost use Rattle.std.specs.Prelude.{◌≡◌, ◌-◌};
ghost use Rattle.format.specs.Judge.{judge};
ghost use Rattle.format.specs.Headers.{headers, headers_of};
ghost use Rattle.format.specs.Calls.{judge_answer};
ghost use Rattle.judge.specs.Inside.{judge_inside};

mod items;
mod late;
mod rules;

use format::{Counts, Refusal, refuse};
use items::read_items;
use text::{characters_of, tokens_of};

// How far the items of one element were read: the stage of their order, and the attributes seen.
// Kept: the stage is a number, since rule 6 compares it, and what tags promises of stages is said of numbers (`latest_of`, `stage_after`).
#[derive(Clone, Copy)]
struct Progress {
    stage: u8,
    mask: u64,
}

// What becomes of a good item: an unknown one is passed over, the token table taken, an element read; any other known item counts.
#[derive(Clone, Copy)]
enum Sort {
    Skip,
    Leaf,
    Table,
    Element,
}

// A good item, judged without what is inside it: its sort, where its body begins, how large that is, and how far its element was read after it.
#[derive(Clone, Copy)]
struct Item {
    sort: Sort,
    start: usize,
    size: usize,
    next: Progress,
}

// How many levels of elements may begin in an element of a depth.
pub fn levels_in(depth: u8) -> u8
    ensures { result ≡ 16 - depth }
{
    if depth < 16 {
        return 16 - depth;
    }
    0
}

// Items of an element of a tag and a depth, judged by themselves, where no token table is in force: the refusal of document 01's table, with its place and field,
// or how many records they have and how many items were judged. Nothing is written.
pub fn judge_inside(element: u8, depth: u8, octets: &[u8]) -> Result<Counts, Refusal>
    ensures { result ≡ judge_answer (headers element octets.now) (judge_inside element depth octets.now) }
{
    if octets.len() > 32_768 {
        return Err(refuse(1, 0));
    }
    let none = &octets[0..0];
    let marks = tokens_of(none);
    let shows = characters_of(none);
    let left = levels_in(depth);
    read_items(
        octets,
        0,
        element,
        left,
        Counts {
            records: 0,
            items: 0,
        },
        none,
        marks,
        &shows,
    )
}

// The whole judgement of an object, which counts as an element with the tag 0 and the depth 0, whose one item is the top.
pub fn judge(object: &[u8]) -> Result<Counts, Refusal>
    ensures { result ≡ judge_answer (headers_of object.now) (judge object.now) }
{
    if object.len() == 0 {
        return Err(refuse(1, 0));
    }
    judge_inside(0, 0, object)
}
