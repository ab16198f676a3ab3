// Reading: the records of an object into lists that the caller lends, and the octets that a record speaks of.
#![tactic(auto)]

ghost use Rattle.std.specs.Prelude.{◌≡◌};
ghost use Rattle.format.specs.Calls.{ReadClaim, ReadAtMostClaim, span_of, body_at};
ghost use Rattle.format.specs.Lent.{lent_lists, Stay};

mod filling;

use filling::{Place, fill_items};
use format::{Counts, RecordsMut, Refusal, Span, refuse};
use judge::judge;

// The records of an object in reading order, the first at number 0, into no more places than the caller says. Nothing is written before
// the whole object is accepted and each record is known to have a place, in the shortest list too.
pub fn read_at_most(object: &[u8], most: usize, records: &mut RecordsMut) -> Result<Counts, Refusal>
    ensures claim { ReadAtMostClaim object.now most (lent_lists records.old) (lent_lists records.new) result }
    ensures stay { Stay records.old records.new }
{
    let counts = judge(object)?;
    if most.min(records.places()) < counts.records {
        return Err(refuse(14, 0));
    }
    let top = Place {
        element: 0,
        number: 0,
        depth: 1,
        offset: 0,
        next: 0,
    };
    fill_items(object, top, records);
    Ok(counts)
}

// The same into as many places as the lists have. The tags' list has no fewer places than the shortest, so its length sets no limit.
pub fn read(object: &[u8], records: &mut RecordsMut) -> Result<Counts, Refusal>
    ensures claim { ReadClaim object.now (lent_lists records.old) (lent_lists records.new) result }
    ensures stay { Stay records.old records.new }
{
    let most = records.tags.len();
    read_at_most(object, most, records)
}

// Where the body of a record lies, or the part of length 0 at the object's start where the lists have no such record or the object no such part.
pub fn span(object: &[u8], starts: &[u16], sizes: &[u16], number: usize) -> Span
    ensures { result ≡ span_of object.now starts.now sizes.now number }
{
    if number >= starts.len() {
        return Span { start: 0, size: 0 };
    }
    if number >= sizes.len() {
        return Span { start: 0, size: 0 };
    }
    let start = starts[number] as usize;
    let size = sizes[number] as usize;
    if start + size > object.len() {
        return Span { start: 0, size: 0 };
    }
    Span { start, size }
}

// The body of a record: that part of the very octets that were lent, no copy.
pub fn body<'a>(object: &'a [u8], starts: &[u16], sizes: &[u16], number: usize) -> &'a [u8]
    ensures { result.now ≡ body_at object.now (span_of object.now starts.now sizes.now number) }
{
    let part = span(object, starts, sizes, number);
    let start = part.start;
    let end = start + part.size;
    &object[start..end]
}
