// Characters passed over sixteen octets at a time, be they letters, tokens or what is written with two octets or three: each octet is held against the two
// before it, so that nothing is decided between one character and the next. What these tests don't know ends the passing, and is looked at by itself.
ghost use Rattle.std.specs.Prelude.{◌≡◌, true, ◌+◌, ◌≤◌, ◌<◌, length, take};
ghost use Rattle.text.specs.Links.{begins, linked, all_linked, linked_at, LinkedTo, PassedTo};

use crate::runs::{is_within, plain_end, sixteens_end};

// An octet that is a character by itself, or with which one of two octets or of three begins.
fn is_beginning(c: u8) -> bool
    ensures { result ≡ begins c }
{
    is_within(c, 0x01, 0x13)
        | is_within(c, 0x20, 0x7F)
        | is_within(c, 0xC2, 0xDF)
        | is_within(c, 0xE1, 0xEC)
}

// An octet after two others: one that goes on with a character where it is due, and else one that begins a character.
fn is_linked(a: u8, b: u8, c: u8) -> bool
    ensures { result ≡ linked a b c }
{
    let due = (a >= 0xE0) | (b >= 0xC0);
    (due & is_within(c, 0x80, 0xBF)) | (!due & is_beginning(c))
}

// Four octets, each after those at its place in two other slices.
fn are_four_linked(a: &[u8], b: &[u8], s: &[u8]) -> bool
    requires in_bounds { 4 ≤ length a.now }
    requires in_bounds_2 { 4 ≤ length b.now }
    requires in_bounds_3 { 4 ≤ length s.now }
    ensures { result ≡ all_linked (take 4 a.now) (take 4 b.now) (take 4 s.now) }
{
    is_linked(a[0], b[0], s[0])
        & is_linked(a[1], b[1], s[1])
        & is_linked(a[2], b[2], s[2])
        & is_linked(a[3], b[3], s[3])
}

// Sixteen octets. The three slices go by themselves, though each begins an octet behind the one before it: so the compiler makes a few comparisons of all
// sixteen.
fn are_sixteen_linked(a: &[u8], b: &[u8], s: &[u8]) -> bool
    requires in_bounds { 16 ≤ length a.now }
    requires in_bounds_2 { 16 ≤ length b.now }
    requires in_bounds_3 { 16 ≤ length s.now }
    ensures { result ≡ all_linked (take 16 a.now) (take 16 b.now) (take 16 s.now) }
{
    are_four_linked(a, b, s)
        & are_four_linked(&a[4..], &b[4..], &s[4..])
        & are_four_linked(&a[8..], &b[8..], &s[8..])
        & are_four_linked(&a[12..], &b[12..], &s[12..])
}

// The sixteen octets from a place on, each after the two before it.
fn are_linked_at(s: &[u8], at: usize) -> bool
    requires le_at { 2 ≤ at }
    requires at_in_bounds { at + 16 ≤ length s.now }
    ensures { result ≡ linked_at s.now at }
{
    are_sixteen_linked(&s[at - 2..], &s[at - 1..], &s[at..])
}

// How far octets may stand after those before them, by sixteens. The last sixteen of the text may take in some that were held already.
fn links_end(s: &[u8], at: usize) -> usize
    requires in_bounds { 18 ≤ length s.now }
    requires le_at { 2 ≤ at }
    requires at_in_bounds { at ≤ length s.now }
    ensures { LinkedTo s.now at result }
{
    let sixteens = (s.len() - at) / 16;
    for n in 0..sixteens {
        if !are_linked_at(s, at + 16 * n) {
            return at + 16 * n;
        }
    }
    if are_linked_at(s, s.len() - 16) {
        return s.len();
    }
    at + 16 * sixteens
}

// The end of the whole characters that begin at a place. The first two octets have nothing before them that counts; a character that isn't complete at the
// end is left out.
fn linked_end(s: &[u8], at: usize) -> usize
    requires in_bounds { 18 ≤ length s.now }
    requires at_in_bounds { at < length s.now }
    ensures { PassedTo true s.now at result }
{
    if s.len() - at < 2 {
        return at;
    }
    if !(is_linked(0x20, 0x20, s[at]) & is_linked(0x20, s[at], s[at + 1])) {
        return at;
    }
    let end = links_end(s, at + 2);
    if s[end - 1] >= 0xC0 {
        return end - 1;
    }
    if s[end - 2] >= 0xE0 {
        return end - 2;
    }
    end
}

// A text of at least 18 octets: sixteens of octets that are text by themselves first, which cost least, and then of others where tokens may stand.
fn long_end(s: &[u8], at: usize, tokens: bool) -> usize
    requires in_bounds { 18 ≤ length s.now }
    requires at_in_bounds { at < length s.now }
    ensures { PassedTo tokens s.now at result }
{
    let from = sixteens_end(s, at);
    if from == s.len() {
        return from;
    }
    if tokens {
        return linked_end(s, from);
    }
    from
}

// The end of whole characters that begin at a place: as far as `check` gets without a look at each. A short text has no sixteens to go by.
pub fn passed_end(s: &[u8], at: usize, tokens: bool) -> usize
    requires { at < length s.now }
    ensures { PassedTo tokens s.now at result }
{
    if s.len() < 18 {
        return plain_end(s, at);
    }
    let from = long_end(s, at, tokens);
    if from == s.len() {
        return from;
    }
    plain_end(s, from)
}
