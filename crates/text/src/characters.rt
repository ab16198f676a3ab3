// Valid text, a character at a time.
ghost use Rattle.std.specs.Prelude.{◌≡◌, cond, ◌/◌, ◌≤◌, ◌<◌, eqb, length};
ghost use Rattle.text.specs.Text.{layout, token, character, single, text};
ghost use Rattle.text.specs.Leaves.{following, several, token_bit, Lead, Steps};

use crate::links::passed_end;
use octets::{Characters, Octets};

// An octet out of an array, as a length. It is handed to a function since nothing is known of an array's octets where they lie, by which a cast there would fit.
pub fn wide(x: u8) -> usize
    ensures value { result ≡ x }
    ensures upper_bound { result < 256 }
{
    x as usize
}

// Tab, line feed or carriage return.
fn is_layout(b: u8) -> bool
    ensures { result ≡ layout b }
{
    if b == 0x09 {
        return true;
    }
    if b == 0x0A {
        return true;
    }
    b == 0x0D
}

// An octet that stands for an entry of the token table.
pub fn is_token(b: u8) -> bool
    ensures { result ≡ token b }
{
    match b {
        0x01..=0x08 | 0x0B | 0x0C | 0x0E..=0x13 => true,
        _ => false,
    }
}

// The mask with the bit of an octet that is a token, and with no bit for any other. The constant has the bits of the octets of `is_token`.
pub fn token_bit(b: u8) -> u32
    ensures { result ≡ token_bit b }
{
    if b > 0x13 {
        return 0;
    }
    (1u32 << (b as u32)) & 0xFD9FE
}

// How many characters begin with an octet: none where it begins with the bits 10 and so goes on with one, else one.
pub fn begun(b: u8) -> Characters
    ensures result_value { result.0 ≡ cond (eqb (b / 64) 2) 0 1 }
    ensures result_bound { result.0 ≤ 1 }
{
    if b / 64 == 2 {
        return Characters(0);
    }
    Characters(1)
}

// An octet below 0x80 that may stand by itself.
fn single_ok(b: u8, tokens: bool) -> bool
    ensures { result ≡ single tokens b }
{
    if b >= 0x20 {
        return true;
    }
    if is_layout(b) {
        return true;
    }
    if is_token(b) {
        return tokens;
    }
    false
}

// A code point that may be written in a form whose least code point is given.
fn character_ok(least: u32, c: u32) -> bool
    ensures { result ≡ character least c }
{
    if c < least {
        return false;
    }
    if c > 0x10FFFF {
        return false;
    }
    if c < 0xD800 {
        return true;
    }
    c > 0xF8FF
}

// The octets after the first of a character, of whose code point the first has these bits.
fn follows(rest: &[u8], bits: u8, least: u32) -> bool
    requires { length rest.now ≤ 3 }
    ensures { result ≡ following least bits rest.now }
{
    let mut c = bits as u32;
    for b in rest {
        if *b / 64 != 2 {
            return false;
        }
        c = c * 64 + (*b as u32) % 64;
    }
    character_ok(least, c)
}

// A character of several octets: its first, and the others, whose number tells the form.
fn several_ok(first: u8, rest: &[u8]) -> bool
    ensures { result ≡ several first rest.now }
{
    if rest.len() == 1 {
        return follows(rest, first % 32, 0x80);
    }
    if rest.len() == 2 {
        return follows(rest, first % 16, 0x800);
    }
    if rest.len() == 3 {
        return follows(rest, first % 8, 0x10000);
    }
    false
}

// The length of a sequence that doesn't begin with an ASCII octet: the count of leading ones in its first octet.
fn leading_ones(first: u8) -> Octets
    ensures { Lead first result.0 }
{
    let ones = u8::leading_zeros(!first) as usize;
    Octets(ones)
}

// The place behind the character with which s begins, and 0 where it begins with none.
pub fn sequence(s: &[u8], tokens: bool) -> usize
    requires { 0 < length s.now }
    ensures { Steps tokens s.now result }
{
    let first = s[0];
    if first < 0x80 {
        if single_ok(first, tokens) {
            return 1;
        }
        return 0;
    }
    let end = leading_ones(first).0;
    if end > s.len() {
        return 0;
    }
    if several_ok(first, &s[1..end]) {
        return end;
    }
    0
}

// Valid text, in which token octets may stand or not. It passes over sixteen octets at a time as far as that goes, and looks at what stops it a character at a
// time.
pub fn check(s: &[u8], tokens: bool) -> bool
    ensures { result ≡ text tokens s.now }
{
    let mut at: usize = 0;
    while at < s.len() {
        let from = passed_end(s, at, tokens);
        if from == s.len() {
            return true;
        }
        let end = sequence(&s[from..], tokens);
        if end == 0 {
            return false;
        }
        at = from + end;
    }
    true
}
