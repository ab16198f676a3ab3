// The token table, an entry at a time.
ghost use Rattle.std.specs.Prelude.{◌≡◌, ◌<◌};
ghost use Rattle.text.specs.Tokens.{entries, is_table};
ghost use Rattle.text.specs.Leaves.{ahead, place_of, RatedBy};
ghost use Rattle.text.specs.Weighing.{tags, Marks, Widths};
ghost use Rattle.text.specs.Index.{noted, Indexes};

use crate::characters::{check, is_token, token_bit};

// An entry of a table: its tag, and the size of its text.
#[derive(Clone, Copy)]
struct Entry {
    tag: u8,
    size: usize,
}

// The entry with which a part of a table begins, where its text lies inside that part.
fn first_entry(rest: &[u8]) -> Option<Entry>
    ensures { result ≡ ahead (entries rest.now) }
{
    if rest.len() < 2 {
        return None;
    }
    let size = rest[1] as usize;
    if rest.len() - 2 < size {
        return None;
    }
    Some(Entry { tag: rest[0], size })
}

// The tokens that have an entry, a bit each.
pub fn tokens_of(table: &[u8]) -> u32
    ensures { Marks result (tags (entries table.now)) }
{
    let mut mask: u32 = 0;
    let mut at: usize = 0;
    while at < table.len() {
        let Some(entry) = first_entry(&table[at..]) else {
            return mask;
        };
        mask |= token_bit(entry.tag);
        at = at + 2 + entry.size;
    }
    mask
}

// Where the width of an entry is kept: at its tag where that is a token that no entry before it has, and else at the last place, which stands for
// no octet.
fn place_of(tag: u8, seen: u32) -> usize
    ensures { result ≡ place_of seen tag }
{
    if !is_token(tag) {
        return 31;
    }
    if (seen >> (tag as u32)) & 1 == 1 {
        return 31;
    }
    tag as usize
}

// How many octets stand for each octet below 31, by one walk over the table: for a token those of its first entry, and for any other octet
// itself. The octet behind an entry's tag is the length of its text.
fn entry_widths(table: &[u8]) -> [u8; 32]
    ensures { Widths 31 (entries table.now) result }
{
    let mut widths: [u8; 32] = [1; 32];
    let mut seen: u32 = 0;
    let mut at: usize = 0;
    while at < table.len() {
        let Some(entry) = first_entry(&table[at..]) else {
            return widths;
        };
        widths[place_of(entry.tag, seen)] = table[at + 1];
        seen |= token_bit(entry.tag);
        at = at + 2 + entry.size;
    }
    widths
}

// The same for each octet below 32: the last place, where entries without a place of their own were kept, gets the width of its octet.
pub fn widths_of(table: &[u8]) -> [u8; 32]
    ensures { Widths 32 (entries table.now) result }
{
    let mut widths = entry_widths(table);
    widths[31] = 1;
    widths
}

// An entry goes into an index: where its tag is a token that has no entry there, the token's place gets where the entry's text begins.
fn note(index: &mut [usize; 32], tag: u8, start: usize)
    ensures { index.new ≡ noted index.old tag start }
{
    if !is_token(tag) {
        return;
    }
    let k = tag as usize;
    if index[k] > 0 {
        return;
    }
    index[k] = start;
}

// A table gone through once, so that an entry is found without a search. At the place of a token stands where the text of its first entry begins
// in the table, or 0 where it has no entry: no text begins there. At the place of 0, which is no token, stands how many octets the longest text has.
// It takes a step for each entry, and a table that passes `is_table` has at most 16 (proofs/Sixteen, sixteen).
pub fn index_of(table: &[u8]) -> [usize; 32]
    ensures { Indexes (entries table.now) result }
{
    let mut index: [usize; 32] = [0; 32];
    index[0] = 1;
    let mut at: usize = 0;
    while at < table.len() {
        let Some(entry) = first_entry(&table[at..]) else {
            return index;
        };
        note(&mut index, entry.tag, at + 2);
        index[0] = index[0].max(entry.size);
        at = at + 2 + entry.size;
    }
    index
}

// Rule 11 for the first entry of what is left of a table, after entries whose tags are the bits of a mask: the entry, where it keeps the rule.
fn good_entry(rest: &[u8], seen: u32) -> Option<Entry>
    ensures { RatedBy seen rest.now result }
{
    let entry = first_entry(rest)?;
    if !is_token(entry.tag) {
        return None;
    }
    if (seen >> (entry.tag as u32)) & 1 == 1 {
        return None;
    }
    let end = 2 + entry.size;
    if !check(&rest[2..end], false) {
        return None;
    }
    Some(entry)
}

// Octets that are a token table (rule 11), in one pass over them.
pub fn is_table(s: &[u8]) -> bool
    ensures { result ≡ is_table s.now }
{
    let mut at: usize = 0;
    let mut seen: u32 = 0;
    while at < s.len() {
        let Some(entry) = good_entry(&s[at..], seen) else {
            return false;
        };
        seen |= 1u32 << (entry.tag as u32);
        at = at + 2 + entry.size;
    }
    true
}
