// The late rule 12, for the texts of the top's own attributes. Nothing is kept for it: while it waits, these attributes are all that was read
// of the top, so they are found again from its start on.
ghost use Rattle.std.specs.Prelude.{◌≡◌, true, not, ◌&&◌, ◌||◌, ◌+◌, ◌≤◌, eqb, length};
ghost use Rattle.text.specs.Tokens.{entries, covered};
ghost use Rattle.values.specs.Table.{known, attribute};
ghost use Rattle.format.specs.Judge.{is_top, is_text};
ghost use Rattle.judge.specs.Says.{LateSays};

use format::{Refusal, refuse};
use octets::read_header;
use tags::{holds_text, is_top};
use text::is_covered;
use values::is_attribute;

// The rule waits while attributes of the top are read.
pub fn is_waiting(parent: u8, stage: u8) -> bool
    ensures { result ≡ (is_top parent && eqb stage 0) }
{
    is_top(parent) && stage == 0
}

// It is judged before an item that is neither an attribute nor the table.
pub fn is_due_before(parent: u8, stage: u8, tag: u8) -> bool
    ensures { result ≡ (not (attribute tag || eqb tag 4) && (is_top parent && eqb stage 0)) }
{
    !is_attribute(tag) && tag != 4 && is_waiting(parent, stage)
}

// Each token octet of an attribute has an entry, if the attribute is text.
fn is_settled(parent: u8, tag: u8, table: &[u8], body: &[u8]) -> bool
    ensures { result ≡ (not (is_text (known parent tag)) || covered (entries table.now) body.now) }
{
    !holds_text(parent, tag) || is_covered(table, body)
}

// The attributes of a part up to `run`, held against a table. The part begins at the place `base`. Headers that don't lie in the part
// aren't met there, since these attributes were judged before.
pub fn hold_attributes(
    part: &[u8],
    run: usize,
    parent: u8,
    base: usize,
    table: &[u8],
) -> Result<(), Refusal>
    requires { (base + length part.now ≤ 32_768) × (run ≤ length part.now) }
    ensures { LateSays true part.now run parent base table.now result }
{
    let mut at: usize = 0;
    while at < run {
        let Some(body) = read_header(&part[at..]) else {
            return Ok(());
        };
        if part.len() - at - body.start < body.size {
            return Ok(());
        }
        let from = at + body.start;
        let to = from + body.size;
        if !is_settled(parent, part[at], table, &part[from..to]) {
            return Err(refuse(12, base + at));
        }
        at = to;
    }
    Ok(())
}

// The rule where it is due. It seldom is: this stands apart from the scan, which the end of the items asks for too, so that it is small enough to be inlined.
#[tactic(auto, using(crate::proofs::LateWays::due_ways))]
pub fn judge_late(
    due: bool,
    part: &[u8],
    run: usize,
    parent: u8,
    base: usize,
    table: &[u8],
) -> Result<(), Refusal>
    requires { (base + length part.now ≤ 32_768) × (run ≤ length part.now) }
    ensures { LateSays due part.now run parent base table.now result }
{
    if due {
        return hold_attributes(part, run, parent, base, table);
    }
    Ok(())
}
