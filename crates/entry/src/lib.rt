// The entry for a caller who keeps records as records: read, with a lent slice of them beside the lists of numbers.
#![tactic(auto)]

ghost use Rattle.std.specs.Prelude.{◌≡◌, ◌≤◌, length};
ghost use Rattle.format.specs.Calls.{ReadRecordsClaim};
ghost use Rattle.format.specs.Lent.{shared_lists, lent_lists, Stay};
ghost use Rattle.entry.specs.Copies.{copied};

use format::{Counts, Outcome, Record, Records, RecordsMut, Refusal};
use reader::read_at_most;

// The first records of the lists into the slice. The only stores into it.
fn copy_records(many: usize, lists: &Records, slice: &mut [Record])
    requires { many ≤ length slice.old }
    ensures { slice.new ≡ copied (shared_lists lists.now) many slice.old }
{
    for (i, record) in slice[..many].iter_mut().enumerate() {
        *record = lists.at(i);
    }
}

// The records of an object in reading order, in the slice and in the lists, where the slice and each list have a place for every one of
// them; nothing is written otherwise.
pub fn read_records(
    object: &[u8],
    lists: &mut RecordsMut,
    slice: &mut [Record],
) -> Result<Counts, Refusal>
    ensures claim { ReadRecordsClaim object.now (lent_lists lists.old) (lent_lists lists.new) slice.old slice.new result }
    ensures stay { Stay lists.old lists.new }
{
    let answer = read_at_most(object, slice.len(), lists);
    let many = Outcome::from(answer).count;
    copy_records(many, &lists.as_records(), slice);
    answer
}
