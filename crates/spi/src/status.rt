// How a command ends.

// Why it doesn't end well; the worse is the greater. What there is to say of it has been said.
#[derive(Clone, Copy, PartialEq, Eq, PartialOrd, Ord)]
pub enum Stop {
    // Refused, or different.
    Bad,
    // No such command, or a file that can't be read or written.
    Failed,
}

// It ends well where what it is asked about is accepted, or the same.
pub type Ended = Result<(), Stop>;

pub fn status_of(ended: Ended) -> u8 {
    match ended {
        Ok(()) => 0,
        Err(Stop::Bad) => 1,
        Err(Stop::Failed) => 2,
    }
}
