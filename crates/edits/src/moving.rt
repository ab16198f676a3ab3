// Parts of the store and of lists that move, so that what is cut out leaves no gap and what is put in has its room.
ghost use Rattle.std.specs.Prelude.{◌≡◌};
ghost use Rattle.edits.specs.Moves.{Carries, carried};

// What lies from a place up to another, and the place from which on it is to lie.
#[derive(Clone, Copy)]
pub struct Move {
    pub from: usize,
    pub end: usize,
    pub to: usize,
}

// Nothing is touched where it lies there already.
pub fn move_to<T: Copy>(list: &mut [T], part: Move)
    requires { Carries part list.old }
    ensures { list.new ≡ carried part (λ l. l) list.old }
{
    if part.to != part.from {
        list.copy_within(part.from..part.end, part.to);
    }
}
