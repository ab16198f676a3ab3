// An object is surveyed before anything is written: judged, and then measured and held against what is lent. Also where an item of a tag lies, and the first item that a
// list has or lacks, the token table of an object, for whoever walks over an object again, and whether an item is written in normal form. No call asks anything of its
// arguments, and none is lent memory to write to.
#![tactic(auto)]

ghost use Rattle.std.specs.Prelude.{◌≡◌};
ghost use Rattle.format.specs.Judge.{judge};
ghost use Rattle.judge.specs.Inside.{judge_inside};
ghost use Rattle.survey.specs.Survey.{sufficient, surveyed, needed_of, needed_by};

mod find;
mod look;
mod measure;
mod table;
mod written;

use crate::measure::{measure, measure_inside};
pub use find::find_item;
use format::{Refusal, refuse};
use judge::{judge, judge_inside};
pub use look::find_first;
pub use measure::Sizes;
use octets::Octets;
pub use table::table_of;
pub use written::{value_size, written_as};

// Why an object doesn't fit what is lent: refused by the judgement; or accepted, but without places for it (14) or room (15).
#[derive(Clone, Copy)]
pub enum Unfit {
    Bad(Refusal),
    Misfit(Refusal),
}

// What an accepted object needs, or items that are judged by themselves: places for so many records and so much of a store and of an object.
#[derive(Clone, Copy)]
pub struct Needs {
    pub records: usize,
    pub sizes: Option<Sizes>,
}

#[tactic(auto, unfolding(crate::specs::Survey::sufficient))]
fn is_sufficient(needs: Option<Sizes>, store: Octets, room: Octets) -> bool
    ensures { result ≡ sufficient needs store room }
{
    match needs {
        None => false,
        Some(sizes) => sizes.store.0 <= store.0 && sizes.octets.0 <= room.0,
    }
}

// What is lent, by size: places for records, octets of the store and of the room.
pub fn survey(object: &[u8], places: usize, store: Octets, room: Octets) -> Result<(), Unfit>
    ensures { result ≡ surveyed (record { records = places; store = store; room = room }) (judge object.now) }
{
    match judge(object) {
        Err(refusal) => Err(Unfit::Bad(refusal)),
        Ok(counts) => {
            if counts.records > places {
                return Err(Unfit::Misfit(refuse(14, 0)));
            }
            if is_sufficient(measure(object), store, room) {
                return Ok(());
            }
            Err(Unfit::Misfit(refuse(15, 0)))
        }
    }
}

// What is to be lent to normalise an object or to take it in (change request 2026-09).
pub fn needs_of(object: &[u8]) -> Result<Needs, Refusal>
    ensures { result ≡ needed_of (judge object.now) }
{
    let counts = judge(object)?;
    Ok(Needs {
        records: counts.records,
        sizes: measure(object),
    })
}

// Items of an element of a tag and a depth, by themselves, where there is no token table.
pub fn survey_inside(element: u8, depth: u8, octets: &[u8]) -> Result<Needs, Refusal>
    ensures { result ≡ needed_by element (judge_inside element depth octets.now) }
{
    let counts = judge_inside(element, depth, octets)?;
    Ok(Needs {
        records: counts.records,
        sizes: measure_inside(element, depth, octets),
    })
}
