// The records of an object in six lists that the caller lends: a record has its place in each of them. A list may be longer than another.
ghost use Rattle.std.specs.Prelude.{◌≡◌, get_or};
ghost use Rattle.format.specs.Calls.{places, row, put_whole};
ghost use Rattle.format.specs.Lent.{shared_lists, lent_lists, Stay};

use crate::Record;

// The lists to read in.
#[derive(Clone, Copy)]
pub struct Records<'l> {
    pub tags: &'l [u8],
    pub kinds: &'l [u8],
    pub depths: &'l [u8],
    pub parents: &'l [u16],
    pub starts: &'l [u16],
    pub sizes: &'l [u16],
}

// The lists to write in. What is lent them promises that they stay the same references (`Stay`), so that who made the struct of slices knows what those hold.
#[derive(Drop)]
pub struct RecordsMut<'l> {
    pub tags: &'l mut [u8],
    pub kinds: &'l mut [u8],
    pub depths: &'l mut [u8],
    pub parents: &'l mut [u16],
    pub starts: &'l mut [u16],
    pub sizes: &'l mut [u16],
}

impl Records<'_> {
    // How many records the lists have places for.
    pub fn places(&self) -> usize
        ensures { result ≡ places (shared_lists self.now) }
    {
        let numbers = self
            .parents
            .len()
            .min(self.starts.len().min(self.sizes.len()));
        self.tags
            .len()
            .min(self.kinds.len().min(self.depths.len().min(numbers)))
    }

    // The record of a number: a field is 0 where its list has no such place.
    pub fn at(&self, i: usize) -> Record
        ensures { result ≡ row (shared_lists self.now) i }
    {
        Record {
            tag: at_or(self.tags, i, 0),
            kind: at_or(self.kinds, i, 0),
            depth: at_or(self.depths, i, 0),
            parent: at_or(self.parents, i, 0),
            start: at_or(self.starts, i, 0),
            size: at_or(self.sizes, i, 0),
        }
    }
}

impl RecordsMut<'_> {
    // The same lists to read in, as long as they are lent for it.
    pub fn as_records(&self) -> Records<'_>
        ensures { shared_lists result ≡ lent_lists self.now }
    {
        Records {
            tags: &*self.tags,
            kinds: &*self.kinds,
            depths: &*self.depths,
            parents: &*self.parents,
            starts: &*self.starts,
            sizes: &*self.sizes,
        }
    }

    pub fn places(&self) -> usize
        ensures { result ≡ places (lent_lists self.now) }
    {
        self.as_records().places()
    }

    // A record into the lists, at its number, whole or not at all: where one of them has no such place, none is stored to.
    pub fn put(&mut self, i: usize, r: Record)
        ensures lists { lent_lists self.new ≡ put_whole i r (lent_lists self.old) }
        ensures stay { Stay self.old self.new }
    {
        if i < self.places() {
            self.tags[i] = r.tag;
            self.kinds[i] = r.kind;
            self.depths[i] = r.depth;
            self.parents[i] = r.parent;
            self.starts[i] = r.start;
            self.sizes[i] = r.size;
        }
    }
}

// What a list has at a place, and another value where it has no such place.
pub fn at_or<T: Copy>(list: &[T], i: usize, other: T) -> T
    ensures { result ≡ get_or list.now i other }
{
    list.get(i).copied().unwrap_or(other)
}
