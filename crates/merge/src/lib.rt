// Merging a Basic and an Advanced object (change request 2026-10): what two objects become, which are refused, and the theorems about both. The definitions
// stand in specs/. Here are only the types that the call takes and gives; the code stands in the crates above.
#![tactic(auto)]

ghost use Rattle.std.specs.Prelude.{◌≡◌};
ghost use Rattle.merge.specs.Calls.{refused_as, merge_outcome};

use format::Refusal;
use octets::Octets;

// By what the services of two ensembles are told apart: by their tag alone, so that an ensemble has one, or by the ids of their bearers.
#[derive(Clone, Copy)]
pub enum Services {
    ByTag,
    ByBearers,
}

// What merging gave: how many records memory has then, and how many octets the room.
#[derive(Clone, Copy)]
pub struct Merged {
    pub records: usize,
    pub size: Octets,
}

// Why nothing was merged, and whether Basic or Advanced alone is to blame.
#[derive(Clone, Copy)]
pub enum MergeRefusal {
    Basic(Refusal),
    Advanced(Refusal),
    Neither(Refusal),
}

// Document 01's numbers for an answer of merging: which object alone is refused (1 Basic, 2 Advanced, 0 none), the refusal's number, 0 where there is none, its place
// and field, and how many records memory has then and how many octets the room; both are 0 after a refusal.
#[derive(Clone, Copy)]
pub struct MergeOutcome {
    pub which: u8,
    pub number: u8,
    pub place: usize,
    pub field: u8,
    pub records: usize,
    pub size: Octets,
}

fn refused_as(which: u8, refusal: Refusal) -> MergeOutcome
    ensures { result ≡ refused_as which refusal }
{
    MergeOutcome {
        which,
        number: refusal.number,
        place: refusal.place,
        field: refusal.field,
        records: 0,
        size: Octets(0),
    }
}

impl From<Result<Merged, MergeRefusal>> for MergeOutcome {
    ghost from_gives = { λ answer outcome. outcome ≡ merge_outcome answer };

    fn from(answer: Result<Merged, MergeRefusal>) -> MergeOutcome {
        match answer {
            Ok(merged) => MergeOutcome {
                which: 0,
                number: 0,
                place: 0,
                field: 0,
                records: merged.records,
                size: merged.size,
            },
            Err(MergeRefusal::Basic(refusal)) => refused_as(1, refusal),
            Err(MergeRefusal::Advanced(refusal)) => refused_as(2, refusal),
            Err(MergeRefusal::Neither(refusal)) => refused_as(0, refusal),
        }
    }
}
