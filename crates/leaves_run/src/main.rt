// Reads questions on standard input and prints a line for each, as the second program's leaves do (second/leaves.c), so that the two can be compared.
//
// A question is a letter, an octet that says a size, and so many octets: K the kind of an element and tag, D whether octets are the default of an attribute, U
// whether octets are text, T a time or the field of it that is wrong, O its local time, B a bearer. What an answer says is proved where it is found, in
// `values`, `text` and `show`; here every function is safe and ends.
#![tactic(auto)]

mod lines;

use crate::lines::Lines;
use streams::{put_in, read_full};
use values::{Bearer, Ensemble, Kind, NumberKind, Time};

// More than all questions together have.
const INPUT: usize = 131_072;

// No normal form of a time or a bearer has more octets.
const OCTETS: usize = 8;

// ---- K

fn kind_words(kind: Kind) -> &'static [u8] {
    match kind {
        Kind::HoldsItems => b"kind items",
        Kind::HoldsTokens => b"kind tokens",
        Kind::HoldsPlain => b"kind plain",
        Kind::HoldsText => b"kind text",
        Kind::HoldsTime => b"kind time",
        Kind::HoldsBearer => b"kind bearer",
        Kind::HoldsNumber(NumberKind::Enumerated) => b"kind number 1",
        Kind::HoldsNumber(NumberKind::Duration | NumberKind::Integer) => b"kind number 2",
        Kind::HoldsNumber(NumberKind::ShortId) => b"kind number 3",
    }
}

fn known_kind(s: &[u8]) -> Option<Kind> {
    let [element, tag] = s else {
        return None;
    };
    values::known_kind(*element, *tag)
}

fn answer_kind(out: &mut Lines, s: &[u8]) {
    out.say(known_kind(s).map_or(b"kind unknown", kind_words));
}

// ---- D and U

// Whether the octets behind an element and a tag are the default of that attribute.
fn answer_default(out: &mut Lines, s: &[u8]) {
    let is_default = match s {
        [element, tag, body @ ..] => values::is_default(*element, *tag, body),
        _ => false,
    };
    out.say(if is_default {
        b"default yes"
    } else {
        b"default no"
    });
}

// The first octet says whether token octets may stand in the text.
fn answer_text(out: &mut Lines, s: &[u8]) {
    let is_text = match s {
        [tokens, text @ ..] => text::check(text, *tokens != 0),
        [] => false,
    };
    out.say(if is_text { b"text yes" } else { b"text no" });
}

// ---- T and O

fn say_time(out: &mut Lines, time: Time) {
    out.say(b"time");
    out.say_field(time.day as usize);
    out.say_field(time.hour as usize);
    out.say_field(time.minute as usize);
    out.say_field(time.second as usize);
    out.say(if time.minus { b" minus" } else { b" plus" });
    out.say_field(time.halves as usize);
    out.say(b" normal ");
    let mut room = [0u8; OCTETS];
    let put = time.canonical().put(&mut room, 0);
    out.say_hex(put_in(&room, put));
}

// Of octets that are no time, the field that is wrong, by its number.
fn answer_time(out: &mut Lines, s: &[u8]) {
    match Time::take(s) {
        Ok(time) => say_time(out, time),
        Err(error) => {
            out.say(b"time bad");
            out.say_field(u8::from(error) as usize);
        }
    }
}

// The only day below 0 is the one before it.
fn say_day(out: &mut Lines, day: i64) {
    if day < 0 {
        out.say(b" -1");
    } else {
        out.say_field(day as usize);
    }
}

fn say_local(out: &mut Lines, time: Time) {
    let local = time.local();
    out.say(b"local");
    say_day(out, local.day);
    out.say_field(local.hour as usize);
    out.say_field(local.minute as usize);
    out.say_field(local.second as usize);
}

fn answer_local(out: &mut Lines, s: &[u8]) {
    match Time::take(s) {
        Ok(time) => say_local(out, time),
        Err(_) => out.say(b"local none"),
    }
}

// ---- B

fn say_ensemble(out: &mut Lines, ensemble: Ensemble) {
    out.say(b" ");
    out.say_hex(&[ensemble.ecc]);
    out.say(b" ");
    out.say_hex(&ensemble.eid.to_be_bytes());
}

// A short one has two octets.
fn say_sid(out: &mut Lines, long: bool, sid: u32) {
    let octets = sid.to_be_bytes();
    out.say(b" sid ");
    out.say_hex(if long { &octets[..] } else { &octets[2..] });
}

fn say_bearer(out: &mut Lines, bearer: Bearer) {
    out.say(b"bearer");
    if let Some(ensemble) = bearer.ensemble {
        say_ensemble(out, ensemble);
    }
    say_sid(out, bearer.long, bearer.sid);
    out.say(b" scids");
    out.say_field(bearer.scids as usize);
    out.say(b" normal ");
    let mut room = [0u8; OCTETS];
    let put = bearer.put(&mut room, 0);
    out.say_hex(put_in(&room, put));
}

fn answer_bearer(out: &mut Lines, s: &[u8]) {
    match Bearer::take(s) {
        Some(bearer) => say_bearer(out, bearer),
        None => out.say(b"bearer none"),
    }
}

// ---- the questions

fn answer(out: &mut Lines, letter: u8, s: &[u8]) {
    match letter {
        b'K' => answer_kind(out, s),
        b'D' => answer_default(out, s),
        b'U' => answer_text(out, s),
        b'T' => answer_time(out, s),
        b'O' => answer_local(out, s),
        b'B' => answer_bearer(out, s),
        _ => out.say(b"unknown question"),
    }
    out.say(b"\n");
}

// Up to the end of the input, or to a question that it cuts short.
fn run(rt: &HostRuntime, input: &[u8]) {
    let mut out = Lines::new();
    let mut left = input;
    while let [letter, size, behind @ ..] = left {
        let Some((body, next)) = behind.split_at_checked(*size as usize) else {
            break;
        };
        out.make_room(rt);
        answer(&mut out, *letter, body);
        left = next;
    }
    out.write_out(rt);
}

// Where reading fails, as where the input ends, nothing more is answered.
fn main(rt: HostRuntime) {
    let mut input = [0u8; INPUT];
    let (size, _) = read_full(&mut rt.stdin(), &mut input);
    run(&rt, &input[..size]);
}
