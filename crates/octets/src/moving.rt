// Octets of a lent slice that make way for others before them.
ghost use Rattle.std.specs.Prelude.{◌≡◌};
ghost use Rattle.octets.specs.Places.{moved_up};

use crate::counts::Octets;
use crate::has_room;

// What lies from a place up to another, some places higher. Nothing is touched where the list ends before the last of these places, where the part ends before
// it begins, and where it lies there already.
pub fn move_up(list: &mut [u8], from: usize, end: usize, by: usize)
    ensures { list.new ≡ moved_up list.old from end by }
{
    if by == 0 {
        return;
    }
    if from > end {
        return;
    }
    if has_room(Octets(list.len()), end, Octets(by)) {
        list.copy_within(from..end, from + by);
    }
}
