// An object that is edited (request 2026-06): each line of standard input is an edit, and the tree that is left is written. The edits are made in memory that
// is lent to the library, and each is known to be made or to leave that memory as it was.
ghost use Rattle.std.specs.Prelude.{◌≤◌, length, IfOk, IfSome};

use crate::asking::{Verb, number_of, octets_in, split_word};
use crate::failing::complain;
use crate::files::load;
use crate::lines::{edit_refused, refused};
use crate::memory::{FILE, Memory, OBJECT, TREE_PLACES};
use crate::objects::written;
use crate::status::Stop;
use format::Refusal;
use octets::Octets;

// The octets that an edit brings, none of more than the buffer has: what is left of its line as it stands or as digits, or a file of that name. One that brings
// none has nothing left.
fn bring<'a>(rt: &HostRuntime, verb: Verb, rest: &'a [u8], buf: &'a mut [u8]) -> Option<&'a [u8]>
    ensures { IfSome result (λ octets. length octets.now ≤ length buf.old) }
{
    match verb {
        Verb::Text => (rest.len() <= buf.len()).then_some(rest),
        Verb::Remove => rest.is_empty().then_some(rest),
        Verb::TextHex | Verb::Insert => octets_in(rest, buf),
        Verb::InsertFile => load(rt, rest, buf).ok(),
    }
}

// A tree in memory that is lent for it, of so many records.
#[derive(Drop)]
struct Tree {
    memory: Memory<TREE_PLACES>,
    records: usize,
}

impl Tree {
    // No more octets in normal form than an object may have.
    fn take_in(&mut self, object: &[u8]) -> Result<(), Refusal> {
        let memory = &mut self.memory;
        self.records = edits::take_in(
            object,
            &mut memory.tags,
            &mut memory.kinds,
            &mut memory.depths,
            &mut memory.parents,
            &mut memory.starts,
            &mut memory.sizes,
            &mut memory.bodies,
            &mut memory.store,
            Octets(OBJECT),
        )?;
        Ok(())
    }

    // The edit that is asked for, made by the library.
    fn edit(
        &mut self,
        verb: Verb,
        number: usize,
        place: usize,
        given: &[u8],
    ) -> Result<(), Refusal> {
        let memory = &mut self.memory;
        self.records = match verb {
            Verb::Insert | Verb::InsertFile => edits::insert(
                self.records,
                number,
                place,
                given,
                &mut memory.tags,
                &mut memory.kinds,
                &mut memory.depths,
                &mut memory.parents,
                &mut memory.starts,
                &mut memory.sizes,
                &mut memory.bodies,
                &mut memory.store,
            )?,
            Verb::Remove => edits::remove(
                self.records,
                number,
                &mut memory.tags,
                &mut memory.kinds,
                &mut memory.depths,
                &mut memory.parents,
                &mut memory.starts,
                &mut memory.sizes,
                &mut memory.bodies,
                &mut memory.store,
            )?,
            Verb::Text | Verb::TextHex => edits::replace_text(
                self.records,
                number,
                given,
                &memory.tags,
                &memory.kinds,
                &memory.depths,
                &memory.parents,
                &mut memory.starts,
                &mut memory.sizes,
                &mut memory.bodies,
                &mut memory.store,
            )?,
        };
        Ok(())
    }

    // The tree's normal form in a lent room.
    #[tactic(auto, using(crate::proofs::Ways::state_within))]
    fn written<'a>(&self, lent: &'a mut [u8]) -> Result<&'a [u8], Refusal>
        ensures { IfOk result (λ octets. length octets.now ≤ length lent.old) }
    {
        let memory = state::Memory::of(
            &self.memory.tags,
            &self.memory.kinds,
            &self.memory.depths,
            &self.memory.parents,
            &self.memory.starts,
            &self.memory.sizes,
            &self.memory.bodies,
            &self.memory.store,
        );
        let answer = writer::write_state(self.records, &memory, lent);
        written(answer, lent)
    }
}

// An edit that spi doesn't know, or whose numbers, digits or file can't be read.
fn unread(rt: &HostRuntime, path: &[u8], number: usize) -> Stop {
    complain(rt, path);
    let _ = eprint!(rt; ": edit {number} can't be read; spi help says how edits are written\n");
    Stop::Failed
}

// An edit, which is a line with something on it, of which is said why it isn't made, or else nothing.
fn edit_line(
    rt: &HostRuntime,
    path: &[u8],
    line: &[u8],
    this: usize,
    tree: &mut Tree,
) -> Result<(), Stop> {
    let (word, behind) = split_word(line);
    let Some(verb) = Verb::named(word) else {
        return Err(unread(rt, path, this));
    };
    let (record, more) = split_word(behind);
    let (place, rest) = if verb.has_place() {
        split_word(more)
    } else {
        (&b"0"[..], more)
    };
    let mut buf = [0u8; FILE];
    let brought = bring(rt, verb, rest, &mut buf);
    let (Some(number), Some(child), Some(given)) = (number_of(record), number_of(place), brought)
    else {
        return Err(unread(rt, path, this));
    };
    tree.edit(verb, number, child, given)
        .map_err(|refusal| edit_refused(rt, path, this, refusal))
}

// All lines of the input, until one isn't made: how many edits were made.
fn edit_lines(rt: &HostRuntime, path: &[u8], input: &[u8], tree: &mut Tree) -> Result<usize, Stop> {
    let mut made: usize = 0;
    for line in input.split(|octet| *octet == b'\n') {
        if line.is_empty() {
            continue;
        }
        made = made.saturating_add(1);
        edit_line(rt, path, line, made, tree)?;
    }
    Ok(made)
}

// An object taken in, edited by the lines of an input, and written to a lent room: how many edits were made, and its normal form.
pub fn edited_form<'a>(
    rt: &HostRuntime,
    path: &[u8],
    object: &[u8],
    input: &[u8],
    lent: &'a mut [u8],
) -> Result<(usize, &'a [u8]), Stop>
    ensures { IfOk result (λ made. length made.1.now ≤ length lent.old) }
{
    let mut tree = Tree {
        memory: Memory::new(),
        records: 0,
    };
    tree.take_in(object)
        .map_err(|refusal| refused(rt, path, refusal))?;
    let made = edit_lines(rt, path, input, &mut tree)?;
    Ok((made, tree.written(lent).unwrap_or(&[])))
}
