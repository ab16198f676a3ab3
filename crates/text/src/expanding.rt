// Texts with their tokens replaced: measured where they stand, and copied by `expand` alone. The run of octets above the last token with which a text
// begins is passed over, eight octets at a time. What comes after it is measured, by eights too as far as they go, by the widths of all tokens. To write
// an expansion, each run is copied, and the text of a token is found by an index of the table. Widths and index are made once for all texts of a table.
// An expansion is measured before it is written only where it could be too long for its room. Whether each token has an entry is asked of all of them at once.
ghost use Rattle.std.specs.Prelude.{◌≡◌, true, ◌+◌, ◌^◌, ◌≤◌, ◌<◌, min, length, take, drop};
ghost use Rattle.std.proofs.lemmas.List.Edits.{sets};
ghost use Rattle.octets.specs.Counts.{as_octets, octets_within};
ghost use Rattle.octets.specs.Puts.{Puts, Lays};
ghost use Rattle.text.specs.Tokens.{entries, stands, expanded, covered, expanded_size};
ghost use Rattle.text.specs.Weighing.{Marks, width_at, weight};
ghost use Rattle.text.specs.Index.{place_by, entries_by, Bounds};

use crate::characters::{is_token, token_bit, wide};
use crate::runs::untokened_end;
use crate::tables::tokens_of;
use octets::{Octets, PutError, Span};

// The tokens of a text, a bit each. Nothing is decided between two octets, so that the compiler takes eight at a time.
fn tokens_in(s: &[u8]) -> u32
    ensures { Marks result s.now }
{
    let mut mask: u32 = 0;
    for b in s {
        mask |= token_bit(*b);
    }
    mask
}

// Each token octet of a text has an entry (rule 12). The table is gone through once, however many tokens stand in the text, and not at all where
// none does.
pub fn is_covered(table: &[u8], s: &[u8]) -> bool
    ensures { result ≡ covered (entries table.now) s.now }
{
    let used = tokens_in(s);
    if used == 0 {
        return true;
    }
    used & tokens_of(table) == used
}

// How many octets stand for an octet, by the widths of a table. Where tokens stand follows no rule, and a processor would often guess a branch
// wrong: here are choices between two numbers, and one load, at a place that there is for every octet.
fn width_by(widths: &[u8; 32], b: u8) -> Octets
    ensures result_value { result.0 ≡ width_at widths.now b }
    ensures result_bound { result.0 < 256 }
{
    let k = if b < 0x14 { b } else { 0x14 };
    let width = wide(widths[k as usize]);
    if b < 0x14 { Octets(width) } else { Octets(1) }
}

fn width_of_two(widths: &[u8; 32], a: u8, b: u8) -> Octets
    ensures result_value { result.0 ≡ width_at widths.now a + width_at widths.now b }
    ensures result_bound { result.0 < 512 }
{
    let both = width_by(widths, a).0 + width_by(widths, b).0;
    Octets(both)
}

// The width of the first eight octets. Nothing is decided between them, and one test of their sum serves for all eight.
fn width_of_eight(widths: &[u8; 32], s: &[u8]) -> Octets
    requires { 8 ≤ length s.now }
    ensures { result.0 ≡ weight widths.now (take 8 s.now) }
{
    let sum = width_of_two(widths, s[0], s[1]).0
        + width_of_two(widths, s[2], s[3]).0
        + width_of_two(widths, s[4], s[5]).0
        + width_of_two(widths, s[6], s[7]).0;
    Octets(sum)
}

// A width before a text and that of the text, by the widths of a table and octet by octet, or `most` where that is less: there it stops.
fn size_singly(widths: &[u8; 32], s: &[u8], before: Octets, most: Octets) -> Octets
    requires { before.0 ≤ most.0 }
    ensures { result.0 ≡ min most.0 (before.0 + weight widths.now s.now) }
{
    let mut total = before.0;
    for b in s {
        let more = width_by(widths, *b);
        if most.0 - total <= more.0 {
            return most;
        }
        total += more.0;
    }
    Octets(total)
}

// How many octets the expansion of a text takes, by the widths of a table, or `most` where that is less: there it stops. The octets before a place
// are known to stand for themselves. The others are taken by eights as far as they go, and then one by one.
fn size_from(widths: &[u8; 32], s: &[u8], from: usize, most: Octets) -> Octets
    requires from_in_bounds { from ≤ length s.now }
    requires from_le_most { from ≤ most.0 }
    ensures { result.0 ≡ min most.0 (from + weight widths.now (drop from s.now)) }
{
    let (eights, rest) = s[from..].as_chunks::<8>();
    let mut total = from;
    for eight in eights {
        let more = width_of_eight(widths, eight);
        if most.0 - total <= more.0 {
            return most;
        }
        total += more.0;
    }
    size_singly(widths, rest, Octets(total), most)
}

// How many octets the expansion of a text takes, by the widths of a table, or `most` where that is less. The run with which the text begins needs
// no widths.
pub fn expanded_size(widths: &[u8; 32], s: &[u8], most: Octets) -> Octets
    ensures { result ≡ as_octets (min most.0 (weight widths.now s.now)) }
{
    if s.len() == 0 {
        return Octets(0);
    }
    let from = untokened_end(s, 0);
    if most.0 <= from {
        return most;
    }
    if from == s.len() {
        return Octets(from);
    }
    size_from(widths, s, from, most)
}

// A part, written from a place on, as `copy` of octets does it and for its reason.
fn copy(part: &[u8], out: &mut [u8], at: usize)
    requires { at + length part.now ≤ length out.old }
    ensures { out.new ≡ sets out.old at part.now }
{
    for i in 0..part.len() {
        out[at + i] = part[i];
    }
}

// Where in the table the text lies that stands for an octet, by an index. None: the octet stands for itself. Any index and any table may be given: an
// entry that doesn't lie in the table, or is longer than the longest of the index, counts as none. The octet before a text is its length.
pub fn replacement(index: &[usize; 32], table: &[u8], b: u8) -> Option<Span>
    ensures { result ≡ place_by index.now table.now b }
{
    if !is_token(b) {
        return None;
    }
    let start = index[b as usize];
    if start == 0 {
        return None;
    }
    if start > table.len() {
        return None;
    }
    let size = table[start - 1] as usize;
    if size > table.len() - start {
        return None;
    }
    if size > index[0] {
        return None;
    }
    Some(Span { start, size })
}

// What stands for an octet, written from a place on, and the place after it.
fn write_one(index: &[usize; 32], table: &[u8], b: u8, out: &mut [u8], at: usize) -> usize
    requires { at + length (stands (entries_by index.now table.now) b) ≤ length out.old }
    ensures { Lays (stands (entries_by index.now table.now) b) at out.old out.new result }
{
    match replacement(index, table, b) {
        None => {
            out[at] = b;
            at + 1
        }
        Some(text) => {
            let end = text.start + text.size;
            copy(&table[text.start..end], out, at);
            at + text.size
        }
    }
}

// The expansion of a text, written from a place on, and the place after it: runs without tokens as they are, and what stands for each octet between
// them.
fn write_all(index: &[usize; 32], table: &[u8], s: &[u8], out: &mut [u8], at: usize) -> usize
    requires { at + length (expanded (entries_by index.now table.now) s.now) ≤ length out.old }
    ensures { Lays (expanded (entries_by index.now table.now) s.now) at out.old out.new result }
{
    let mut to = at;
    let mut i: usize = 0;
    while i < s.len() {
        let from = untokened_end(s, i);
        copy(&s[i..from], out, to);
        let behind = to + (from - i);
        if from == s.len() {
            return behind;
        }
        to = write_one(index, table, s[from], out, behind);
        i = from + 1;
    }
    to
}

// How many octets stand for an octet, by an index.
fn indexed_width(index: &[usize; 32], table: &[u8], b: u8) -> Octets
    ensures { result.0 ≡ length (stands (entries_by index.now table.now) b) }
{
    match replacement(index, table, b) {
        None => Octets(1),
        Some(text) => Octets(text.size),
    }
}

// How many octets the expansion of a text takes, by an index and octet by octet, or `most` where that is less: there it stops.
// Kept beside `size_singly`: one loop that takes the width by a closure is no plainer, since its clause had to say what the closure answers of every octet.
fn size_by(index: &[usize; 32], table: &[u8], s: &[u8], most: Octets) -> Octets
    ensures { result.0 ≡ min most.0 (expanded_size (entries_by index.now table.now) s.now).0 }
{
    let mut total: usize = 0;
    for b in s {
        let more = indexed_width(index, table, *b);
        if most.0 - total <= more.0 {
            return most;
        }
        total += more.0;
    }
    Octets(total)
}

// So many octets at most stand for any octet by an index.
fn widest_by(index: &[usize; 32]) -> Octets
    ensures { Bounds index.now result.0 }
{
    let longest = index[0];
    if longest == 0 {
        return Octets(1);
    }
    Octets(longest)
}

// The expansion of a text has room. It is measured only where that isn't sure by the length of the text and the longest entry. The room is that of a slice,
// so that one more than it is still a number.
fn fits(index: &[usize; 32], table: &[u8], s: &[u8], room: Octets) -> bool
    requires { room.0 < 2 ^ 63 }
    ensures { result ≡ octets_within (expanded_size (entries_by index.now table.now) s.now) room }
{
    if s.len() <= room.0 / widest_by(index).0 {
        return true;
    }
    let past = room.0 + 1;
    size_by(index, table, s, Octets(past)).0 <= room.0
}

// The expansion of a text, written from a place on where it fits. That is known before the first octet is written, and nothing is written where it
// doesn't fit. Any index may be given; by the one that `index_of` makes of the table it is the expansion by that table (proofs/Index, indexed-expanded).
pub fn expand(
    index: &[usize; 32],
    table: &[u8],
    s: &[u8],
    out: &mut [u8],
    at: usize,
) -> Result<usize, PutError>
    ensures { Puts true (expanded (entries_by index.now table.now) s.now) at out.old out.new result }
{
    if at > out.len() {
        return Err(PutError::NoRoom);
    }
    let room = out.len() - at;
    if !fits(index, table, s, Octets(room)) {
        return Err(PutError::NoRoom);
    }
    Ok(write_all(index, table, s, out, at))
}
