// Kinds of values, times and bearers: the types that code and definitions share, and the calls that look a pair up, take values apart
// and put them together. No call has a `requires`: octets that are no value, a time out of range or a room too small get an answer.
#![tactic(auto)]

ghost use Rattle.std.specs.Prelude.{◌≡◌};
ghost use Rattle.values.specs.Times.{number_of};

mod bearer_form;
mod defaults;
mod numbers;
mod table;
mod time_form;
mod value_form;

pub use defaults::is_default;
pub use table::{is_attribute, known_kind};
pub use value_form::{fits_kind, normal_size, put_normal, wrong_field};

// The kinds of number that document 01 names; each has a width of its own.
#[derive(Clone, Copy)]
pub enum NumberKind {
    Duration,
    ShortId,
    Enumerated,
    Integer,
}

// What the body of a known item holds.
#[derive(Clone, Copy)]
pub enum Kind {
    HoldsItems,
    HoldsTokens,
    HoldsText,
    HoldsPlain,
    HoldsTime,
    HoldsBearer,
    HoldsNumber(NumberKind),
}

// A point in time, UTC, with the offset of local time in half hours.
#[derive(Clone, Copy, PartialEq, Eq)]
pub struct Time {
    pub day: u32,
    pub hour: u32,
    pub minute: u32,
    pub second: u32,
    pub minus: bool,
    pub halves: u32,
}

// A time moved by its offset. The day is signed: it may be the one before day 0.
#[derive(Clone, Copy)]
pub struct Local {
    pub day: i64,
    pub hour: u64,
    pub minute: u64,
    pub second: u32,
}

// The ensemble that a bearer names.
#[derive(Clone, Copy, PartialEq, Eq)]
pub struct Ensemble {
    pub ecc: u8,
    pub eid: u16,
}

// A DAB bearer. `long` tells a 32-bit service id from a 16-bit one, which it never equals.
#[derive(Clone, Copy, PartialEq, Eq)]
pub struct Bearer {
    pub ensemble: Option<Ensemble>,
    pub long: bool,
    pub sid: u32,
    pub scids: u8,
}

// The field of octets that is wrong, so that they are no time. Its number goes with refusal 9.
#[derive(Clone, Copy, PartialEq, Eq)]
pub enum TimeError {
    Length,
    Date,
    Hours,
    Minutes,
    Seconds,
}

impl From<TimeError> for u8 {
    ghost from_gives = { λ error number. number ≡ number_of error };

    fn from(error: TimeError) -> u8 {
        match error {
            TimeError::Length => 1,
            TimeError::Date => 2,
            TimeError::Hours => 3,
            TimeError::Minutes => 4,
            TimeError::Seconds => 5,
        }
    }
}
