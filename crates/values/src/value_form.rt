// Values by kind: whether octets are one, how large its normal octets are, and those octets written.
ghost use Rattle.std.specs.Prelude.{◌≡◌};
ghost use Rattle.octets.specs.Puts.{Puts};
ghost use Rattle.values.specs.declared.Kind.TheVariants.{HoldsTime, HoldsBearer, HoldsNumber};
ghost use Rattle.values.specs.Times.{is_time, wrong_time};
ghost use Rattle.values.specs.Bearers.{is_bearer};
ghost use Rattle.values.specs.Values.{width, fits, wrong_field};
ghost use Rattle.values.specs.Calls.{normal_octets, normal_size};

use crate::{Bearer, Kind, NumberKind, Time};
use octets::{Octets, PutError, copy_into};

// Rule 9: whether octets are a value of their kind. Text, tokens, items and plain octets always are.
pub fn fits_kind(kind: Kind, s: &[u8]) -> bool
    ensures { result ≡ fits kind s.now }
{
    match kind {
        Kind::HoldsItems => true,
        Kind::HoldsTokens => true,
        Kind::HoldsText => true,
        Kind::HoldsPlain => true,
        Kind::HoldsTime => is_time(s),
        Kind::HoldsBearer => is_bearer(s),
        Kind::HoldsNumber(n) => has_width(n, s),
    }
}

// The field that refusal 9 carries: of a time the one that is wrong, and 0 of other kinds (change request 2026-04).
pub fn wrong_field(kind: Kind, s: &[u8]) -> u8
    ensures { result ≡ wrong_field kind s.now }
{
    match kind {
        Kind::HoldsItems => 0,
        Kind::HoldsTokens => 0,
        Kind::HoldsText => 0,
        Kind::HoldsPlain => 0,
        Kind::HoldsTime => time_field(s),
        Kind::HoldsBearer => 0,
        Kind::HoldsNumber(_) => 0,
    }
}

fn time_field(s: &[u8]) -> u8
    ensures { result ≡ wrong_time s.now }
{
    match Time::take(s) {
        Ok(_) => 0,
        Err(error) => u8::from(error),
    }
}

// How many octets the normal form of a value has.
pub fn normal_size(kind: Kind, s: &[u8]) -> Option<Octets>
    ensures { result ≡ normal_size kind s.now }
{
    match kind {
        Kind::HoldsItems => Some(Octets(s.len())),
        Kind::HoldsTokens => Some(Octets(s.len())),
        Kind::HoldsText => Some(Octets(s.len())),
        Kind::HoldsPlain => Some(Octets(s.len())),
        Kind::HoldsTime => time_size(s),
        Kind::HoldsBearer => bearer_size(s),
        Kind::HoldsNumber(n) => number_size(n, s),
    }
}

// The normal octets of a value, written from a place on.
pub fn put_normal(kind: Kind, s: &[u8], out: &mut [u8], at: usize) -> Result<usize, PutError>
    ensures { Puts (fits kind s.now) (normal_octets kind s.now) at out.old out.new result }
{
    match kind {
        Kind::HoldsItems => copy_into(out, at, s),
        Kind::HoldsTokens => copy_into(out, at, s),
        Kind::HoldsText => copy_into(out, at, s),
        Kind::HoldsPlain => copy_into(out, at, s),
        Kind::HoldsTime => put_time(s, out, at),
        Kind::HoldsBearer => put_bearer(s, out, at),
        Kind::HoldsNumber(n) => put_number(n, s, out, at),
    }
}

fn is_time(s: &[u8]) -> bool
    ensures { result ≡ is_time s.now }
{
    match Time::take(s) {
        Ok(_) => true,
        Err(_) => false,
    }
}

fn is_bearer(s: &[u8]) -> bool
    ensures { result ≡ is_bearer s.now }
{
    match Bearer::take(s) {
        Some(_) => true,
        None => false,
    }
}

// How many octets a number of the kind has.
fn width_of(n: NumberKind) -> Octets
    ensures { result.0 ≡ width n }
{
    match n {
        NumberKind::Duration => Octets(2),
        NumberKind::ShortId => Octets(3),
        NumberKind::Enumerated => Octets(1),
        NumberKind::Integer => Octets(2),
    }
}

fn has_width(n: NumberKind, s: &[u8]) -> bool
    ensures { result ≡ fits (HoldsNumber n) s.now }
{
    s.len() == width_of(n).0
}

fn time_size(s: &[u8]) -> Option<Octets>
    ensures { result ≡ normal_size HoldsTime s.now }
{
    match Time::take(s) {
        Ok(t) => Some(t.size()),
        Err(_) => None,
    }
}

fn bearer_size(s: &[u8]) -> Option<Octets>
    ensures { result ≡ normal_size HoldsBearer s.now }
{
    match Bearer::take(s) {
        Some(b) => Some(b.size()),
        None => None,
    }
}

fn number_size(n: NumberKind, s: &[u8]) -> Option<Octets>
    ensures { result ≡ normal_size (HoldsNumber n) s.now }
{
    if has_width(n, s) {
        return Some(Octets(s.len()));
    }
    None
}

fn put_time(s: &[u8], out: &mut [u8], at: usize) -> Result<usize, PutError>
    ensures { Puts (fits HoldsTime s.now) (normal_octets HoldsTime s.now) at out.old out.new result }
{
    match Time::take(s) {
        Ok(t) => t.put(out, at),
        Err(_) => Err(PutError::Invalid),
    }
}

fn put_bearer(s: &[u8], out: &mut [u8], at: usize) -> Result<usize, PutError>
    ensures { Puts (fits HoldsBearer s.now) (normal_octets HoldsBearer s.now) at out.old out.new result }
{
    match Bearer::take(s) {
        Some(b) => b.put(out, at),
        None => Err(PutError::Invalid),
    }
}

// The octets of a number of the right width are its normal octets.
fn put_number(n: NumberKind, s: &[u8], out: &mut [u8], at: usize) -> Result<usize, PutError>
    ensures { Puts (fits (HoldsNumber n) s.now) (normal_octets (HoldsNumber n) s.now) at out.old out.new result }
{
    if has_width(n, s) {
        return copy_into(out, at, s);
    }
    Err(PutError::Invalid)
}
