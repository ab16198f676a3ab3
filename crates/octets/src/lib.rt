// Numbers in octets, the most significant first, and the header of an item: its tag and the length of its body in one of three forms (document 01, Framing).
// Readers and writers above take headers, numbers and plain octets through the public calls alone. None asks anything of its arguments. A call that puts
// octets leaves the lent ones as they were unless it answers Ok.
#![tactic(auto)]

ghost use Rattle.std.specs.Prelude.{◌≡◌, true, ◌∷◌, suc, ◌+◌, ◌*◌, ◌/◌, ◌%◌, ◌^◌, ◌≤◌, ◌<◌, leb, ltb, length};
ghost use Rattle.std.proofs.lemmas.List.Edits.{sets};
ghost use Rattle.octets.specs.Counts.{as_octets};
ghost use Rattle.octets.specs.Numbers.{value, digits};
ghost use Rattle.octets.specs.Header.{length_field};
ghost use Rattle.octets.specs.Calls.{header_of, number_of, fits_width, Formed};
ghost use Rattle.octets.specs.Puts.{Puts};

mod counts;
mod items;
mod moving;

pub use counts::{Characters, Octets};
pub use items::item_at;
pub use moving::move_up;

// A part of octets: where it begins and how many octets it has.
#[derive(Clone, Copy)]
pub struct Span {
    pub start: usize,
    pub size: usize,
}

// The same by the places between which it lies, as the body of an item lies in its part.
#[derive(Clone, Copy)]
pub struct Lies {
    pub from: usize,
    pub to: usize,
}

// Why octets were not put into a lent slice, by a call of this crate or of one above it, which else answers the place behind the last of them. Invalid: what is to
// be written has no such octets, whatever the room. Neither wrote.
#[derive(Clone, Copy)]
pub enum PutError {
    NoRoom,
    Invalid,
}

// How a length is written: as the length octet itself, or behind 0xFE in two octets. A length in three octets is read, but never written.
#[derive(Clone, Copy)]
enum LengthForm {
    One,
    Two,
}

// The span of the body of the item with which a part begins: it begins behind the tag and the length, and may run past the part. None: the part ends within the
// header. Looks at the octets of the length alone: at most four.
pub fn read_header(part: &[u8]) -> Option<Span>
    ensures { result ≡ header_of part.now }
{
    if part.len() < 2 {
        return None;
    }
    let first = part[1];
    if first < 0xFE {
        let size = first as usize;
        return Some(Span { start: 2, size });
    }
    if first == 0xFE {
        if part.len() < 4 {
            return None;
        }
        let size = value_of(&part[2..4]) as usize;
        return Some(Span { start: 4, size });
    }
    if part.len() < 5 {
        return None;
    }
    let size = value_of(&part[2..5]) as usize;
    Some(Span { start: 5, size })
}

// The number that octets write, if there are at most four.
pub fn read_number(s: &[u8]) -> Option<u32>
    ensures { result ≡ number_of s.now }
{
    if s.len() > 4 {
        return None;
    }
    Some(value_of(s))
}

fn value_of(s: &[u8]) -> u32
    requires { length s.now ≤ 4 }
    ensures { result ≡ value s.now }
{
    let mut n: u32 = 0;
    for b in s {
        n = joined(n, *b);
    }
    n
}

// A number with one octet more behind it.
fn joined(n: u32, b: u8) -> u32
    requires { n < 2 ^ 24 }
    ensures { result ≡ n * 256 + b }
{
    (n << 8) | (b as u32)
}

// The one place that chooses the form in which a length is written: the shorter of two (document 01, Records and meaning, as change request 2026-08 amends it).
// Whatever writes or measures a header goes by its answer.
fn length_form(n: Octets) -> LengthForm
    ensures { Formed n.0 result }
{
    if n.0 <= 0xFD {
        return LengthForm::One;
    }
    LengthForm::Two
}

// How many octets the header of a body of n octets takes. Told of every n; that none has a header from 65,536 on is for write_header to say.
pub fn header_size(n: Octets) -> Octets
    ensures { result ≡ as_octets (suc (length (length_field n.0))) }
{
    match length_form(n) {
        LengthForm::One => Octets(2),
        LengthForm::Two => Octets(4),
    }
}

// The header of a body of n octets, put at a place. Invalid: n is 65,536 or more, a length that has no form here.
pub fn write_header(out: &mut [u8], at: usize, tag: u8, n: Octets) -> Result<usize, PutError>
    ensures { Puts (ltb n.0 (256 ^ 2)) (tag ∷ length_field n.0) at out.old out.new result }
{
    if n.0 > 0xFFFF {
        return Err(PutError::Invalid);
    }
    let size = header_size(n);
    if !has_room(Octets(out.len()), at, size) {
        return Err(PutError::NoRoom);
    }
    out[at] = tag;
    store_length(out, at + 1, n);
    Ok(at + size.0)
}

fn store_length(out: &mut [u8], at: usize, n: Octets)
    requires n_bound { n.0 < 256 ^ 2 }
    requires n_in_bounds { at + length (length_field n.0) ≤ length out.old }
    ensures { out.new ≡ sets out.old at (length_field n.0) }
{
    match length_form(n) {
        LengthForm::One => {
            store_number(out, at, Octets(1), n.0 as u32);
        }
        LengthForm::Two => {
            out[at] = 0xFE;
            store_number(out, at + 1, Octets(2), n.0 as u32);
        }
    }
}

// A number in so many octets, put at a place. Invalid: there are more than four, or too few for the number.
pub fn put_number(out: &mut [u8], at: usize, width: Octets, n: u32) -> Result<usize, PutError>
    ensures { Puts (fits_width width.0 n) (digits width.0 n) at out.old out.new result }
{
    if !fits_width(width, n) {
        return Err(PutError::Invalid);
    }
    if !has_room(Octets(out.len()), at, width) {
        return Err(PutError::NoRoom);
    }
    store_number(out, at, width, n);
    Ok(at + width.0)
}

fn fits_width(width: Octets, n: u32) -> bool
    ensures { result ≡ fits_width width.0 n }
{
    if width.0 > 4 {
        return false;
    }
    (n as u64) >> (8 * width.0) == 0
}

fn store_number(out: &mut [u8], at: usize, width: Octets, n: u32)
    requires width_bound { width.0 ≤ 4 }
    requires n_bound { n < 256 ^ width.0 }
    requires width_in_bounds { at + width.0 ≤ length out.old }
    ensures { out.new ≡ sets out.old at (digits width.0 n) }
{
    for i in 0..width.0 {
        out[at + i] = digit(n, width.0 - 1 - i);
    }
}

// The octet of a number that has so many behind it.
fn digit(n: u32, place: usize) -> u8
    requires { place < 4 }
    ensures { result ≡ n / 256 ^ place % 256 }
{
    ((n >> (8 * place)) & 0xFF) as u8
}

// Octets laid from a place on, one by one: of the library's `copy_from_slice` the compiler makes a call of memmove, which whoever links the archive for C would
// have to bring.
fn copy(out: &mut [u8], at: usize, s: &[u8])
    requires { at + length s.now ≤ length out.old }
    ensures { out.new ≡ sets out.old at s.now }
{
    for i in 0..s.len() {
        out[at + i] = s[i];
    }
}

// Octets as they stand, put at a place.
pub fn copy_into(out: &mut [u8], at: usize, s: &[u8]) -> Result<usize, PutError>
    ensures { Puts true s.now at out.old out.new result }
{
    let size = Octets(s.len());
    if !has_room(Octets(out.len()), at, size) {
        return Err(PutError::NoRoom);
    }
    copy(out, at, s);
    Ok(at + size.0)
}

// Whether so many octets, put at a place, lie within the room. No sum is made before it is known to fit. Calls that put octets, here and above, ask this before
// they write.
pub fn has_room(room: Octets, at: usize, size: Octets) -> bool
    ensures { result ≡ leb (at + size.0) room.0 }
{
    if at > room.0 {
        return false;
    }
    size.0 <= room.0 - at
}
