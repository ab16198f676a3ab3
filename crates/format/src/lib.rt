// What the calls of the library share: records, refusals, counts, and what answers are made of. The rules are in specs/, the theorems in proofs/.
#![tactic(auto)]

ghost use Rattle.std.specs.Prelude.{◌≡◌};
ghost use Rattle.format.specs.Tree.{kind_of};
ghost use Rattle.format.specs.Answers.{refusal, read_outcome, edit_outcome, write_outcome, check_outcome, of_refused, same_outcome};

mod lent;

pub use lent::{Records, RecordsMut, at_or};
use octets::Octets;
pub use octets::Span;
use values::is_attribute;

// One known item: its tag, its kind (0 an element, 1 an attribute, 2 CDATA), its depth, the number of its parent's record, and where its body
// begins and how many octets it has. (`size`, since `length` in a contract is a list's.)
// Kept: tag and kind are numbers, no enums, since the lists of C hold them (`spi_read`) and the claims of reading and writing speak of them (`row`, `put_whole`).
#[derive(Clone, Copy)]
pub struct Record {
    pub tag: u8,
    pub kind: u8,
    pub depth: u8,
    pub parent: u16,
    pub start: u16,
    pub size: u16,
}

// The kind that the record of a tag shows.
pub fn kind_of(tag: u8) -> u8
    ensures { result ≡ kind_of tag }
{
    if is_attribute(tag) {
        return 1;
    }
    if tag == 1 { 2 } else { 0 }
}

// A refusal: its number in document 01's table, the offset that goes with it, and for 9 the field of a time that is wrong: 1 length, 2 date, 3 hours, 4 minutes,
// 5 seconds. The field is 0 for values of other kinds and for other numbers (change request 2026-04).
// Kept: a number, no enum, since C is handed the number, and the rules and theorems are stated of it (`rule` in specs/Judge, demands/specs/One).
#[derive(Clone, Copy)]
pub struct Refusal {
    pub number: u8,
    pub place: usize,
    pub field: u8,
}

// A refusal with no field, which all but that of a time have.
pub fn refuse(number: u8, place: usize) -> Refusal
    ensures { result ≡ refusal number place }
{
    Refusal {
        number,
        place,
        field: 0,
    }
}

// What reading counts: records, and the items that it judged, known and unknown, those inside unknown ones left out (change request 2026-09).
#[derive(Clone, Copy)]
pub struct Counts {
    pub records: usize,
    pub items: usize,
}

// Which of two objects that were to be compared is refused, the first before the second, and why.
#[derive(Clone, Copy)]
pub enum SameRefusal {
    First(Refusal),
    Second(Refusal),
}

// Document 01's numbers for an answer: the refusal's number, 0 where there is none, its place and field, the count, of records or of octets, and
// for reading the number of items judged; both are 0 after a refusal.
#[derive(Clone, Copy)]
pub struct Outcome {
    pub number: u8,
    pub place: usize,
    pub field: u8,
    pub count: usize,
    pub items: usize,
}

// The same for a comparison: which object was refused (0 none, 1 the first, 2 the second), and whether they mean the same.
#[derive(Clone, Copy)]
pub struct SameOutcome {
    pub same: bool,
    pub which: u8,
    pub number: u8,
    pub place: usize,
    pub field: u8,
}

// An answer in these numbers: of reading, what was handed out; of taking in and of editing, how many records memory has then (every item has one there, so that
// items are no count of their own: docs/DECISIONS.md); of writing and of normalising, how many octets were handed out. Or else why nothing was.
impl From<Result<Counts, Refusal>> for Outcome {
    ghost from_gives = { λ answer outcome. outcome ≡ read_outcome answer };

    fn from(answer: Result<Counts, Refusal>) -> Outcome {
        match answer {
            Ok(counts) => Outcome {
                number: 0,
                place: 0,
                field: 0,
                count: counts.records,
                items: counts.items,
            },
            Err(refusal) => refused(refusal),
        }
    }
}

impl From<Result<usize, Refusal>> for Outcome {
    ghost from_gives = { λ answer outcome. outcome ≡ edit_outcome answer };

    fn from(answer: Result<usize, Refusal>) -> Outcome {
        match answer {
            Ok(count) => counted(count),
            Err(refusal) => refused(refusal),
        }
    }
}

impl From<Result<Octets, Refusal>> for Outcome {
    ghost from_gives = { λ answer outcome. outcome ≡ write_outcome answer };

    fn from(answer: Result<Octets, Refusal>) -> Outcome {
        match answer {
            Ok(size) => counted(size.0),
            Err(refusal) => refused(refusal),
        }
    }
}

// Of a check, which hands nothing out.
impl From<Result<(), Refusal>> for Outcome {
    ghost from_gives = { λ answer outcome. outcome ≡ check_outcome answer };

    fn from(answer: Result<(), Refusal>) -> Outcome {
        match answer {
            Ok(()) => counted(0),
            Err(refusal) => refused(refusal),
        }
    }
}

fn counted(count: usize) -> Outcome
    ensures { result ≡ edit_outcome (Ok count) }
{
    Outcome {
        number: 0,
        place: 0,
        field: 0,
        count,
        items: 0,
    }
}

fn refused(refusal: Refusal) -> Outcome
    ensures { result ≡ edit_outcome (Err refusal) }
{
    Outcome {
        number: refusal.number,
        place: refusal.place,
        field: refusal.field,
        count: 0,
        items: 0,
    }
}

impl From<Result<bool, SameRefusal>> for SameOutcome {
    ghost from_gives = { λ answer outcome. outcome ≡ same_outcome answer };

    fn from(answer: Result<bool, SameRefusal>) -> SameOutcome {
        match answer {
            Ok(same) => SameOutcome {
                same,
                which: 0,
                number: 0,
                place: 0,
                field: 0,
            },
            Err(SameRefusal::First(refusal)) => of_refused(1, refusal),
            Err(SameRefusal::Second(refusal)) => of_refused(2, refusal),
        }
    }
}

fn of_refused(which: u8, refusal: Refusal) -> SameOutcome
    ensures { result ≡ of_refused which refusal }
{
    SameOutcome {
        same: false,
        which,
        number: refusal.number,
        place: refusal.place,
        field: refusal.field,
    }
}
