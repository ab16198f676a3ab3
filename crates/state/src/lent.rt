// Lent memory: the records in their six lists, the size of each record's body in normal form in a seventh, and the texts and values in the store.
ghost use Rattle.std.specs.Prelude.{◌≡◌};
ghost use Rattle.state.specs.Taking.{memory, shared_memory};

use format::Records;

// Memory to read in.
// Kept: memory to write in is lent as eight slices, as C lends it (`spi_insert`). A struct of them was tried in small, and the borrow checker has no rule for
// two things: to make one that holds a `RecordsMut` of C's slices, and to lend a call one of its slices to read and another to write, as raising sizes does.
#[derive(Clone, Copy)]
pub struct Memory<'m> {
    pub records: Records<'m>,
    pub bodies: &'m [u16],
    pub store: &'m [u8],
}

impl<'m> Memory<'m> {
    // The memory that eight slices are.
    pub fn of(
        tags: &'m [u8],
        kinds: &'m [u8],
        depths: &'m [u8],
        parents: &'m [u16],
        starts: &'m [u16],
        sizes: &'m [u16],
        bodies: &'m [u16],
        store: &'m [u8],
    ) -> Memory<'m>
        ensures { shared_memory result ≡ memory tags.now kinds.now depths.now parents.now starts.now sizes.now bodies.now store.now }
    {
        let records = Records {
            tags,
            kinds,
            depths,
            parents,
            starts,
            sizes,
        };
        Memory {
            records,
            bodies,
            store,
        }
    }
}
