// Dates and times as text.
ghost use Rattle.std.specs.Prelude.{◌≡◌, true, cond, [], ◌∷◌, ◌*◌, ◌/◌, ◌%◌, ◌<◌};
ghost use Rattle.values.specs.Times.{in_range};
ghost use Rattle.xml.specs.Dates.{is_leap, year_days, month_days, days_to, date_of, between, date_text, clock, time_text};
ghost use Rattle.xml.specs.Steps.{Puts, YearIs, MonthIs, LocalDay};

use crate::put::{put_four, put_octet, put_two};
use values::{Local, Time};

// A year and the days after its 1 January; a month and the day in it.
#[derive(Clone, Copy)]
struct Part {
    number: u32,
    rest: u32,
}

#[tactic(auto, using(crate::proofs::Dating::leap_ways))]
fn is_leap(year: u32) -> bool
    ensures { result ≡ is_leap year }
{
    year % 4 == 0 && (year % 100 != 0 || year % 400 == 0)
}

#[tactic(auto, using(crate::proofs::Dating::leap_ways))]
fn year_days(year: u32) -> u32
    ensures { result ≡ year_days year }
{
    if is_leap(year) { 366 } else { 365 }
}

#[tactic(auto, using(crate::proofs::Dating::month_ways))]
fn month_days(year: u32, month: u32) -> u32
    ensures { result ≡ month_days year month }
{
    match month {
        2 if is_leap(year) => 29,
        2 => 28,
        4 | 6 | 9 | 11 => 30,
        _ => 31,
    }
}

// The last year that a day below 100,375 can lie in.
const LAST_YEAR: u32 = 2132;

// The year of the day so many days after 1 January 1858.
fn year_of(days: u32) -> Part
    requires { days < 100_375 }
    ensures { YearIs days result }
{
    let mut rest = days;
    for year in 1858..LAST_YEAR {
        let size = year_days(year);
        if rest < size {
            return Part { number: year, rest };
        }
        rest -= size;
    }
    Part {
        number: LAST_YEAR,
        rest,
    }
}

fn month_of(year: u32, days: u32) -> Part
    requires { days < year_days year }
    ensures { MonthIs year days result }
{
    let mut rest = days;
    for month in 1..12 {
        let size = month_days(year, month);
        if rest < size {
            return Part {
                number: month,
                rest: rest + 1,
            };
        }
        rest -= size;
    }
    Part {
        number: 12,
        rest: rest + 1,
    }
}

// Two numbers of two digits and a mark between them.
fn put_pair(out: &mut [u8], at: usize, a: u32, b: u32, mark: u8, emit: bool) -> usize
    requires { (a < 100) × (b < 100) }
    ensures { Puts emit (between mark (clock (a ∷ b ∷ []))) at out.old out.new result }
{
    let c = put_two(out, at, a, emit);
    let d = put_octet(out, c, mark, emit);
    put_two(out, d, b, emit)
}

fn put_date(out: &mut [u8], at: usize, days: u32, emit: bool) -> usize
    requires { days < 100_375 }
    ensures { Puts emit (date_text (date_of days)) at out.old out.new result }
{
    let year = year_of(days);
    let month = month_of(year.number, year.rest);
    let a = put_four(out, at, year.number, emit);
    let b = put_octet(out, a, 0x2D, emit);
    put_pair(out, b, month.number, month.rest, 0x2D, emit)
}

// The days from 1 January 1858 to that of a local time. The only one below 0 is the day before day 0.
#[tactic(auto, using(crate::proofs::Dating::day_ways))]
fn days_to(local: Local) -> u32
    requires { LocalDay local.day }
    ensures { result ≡ days_to local.day }
{
    if local.day < 0 {
        return 319;
    }
    320 + (local.day as u32)
}

fn put_clock(out: &mut [u8], at: usize, hour: u32, minute: u32, second: u32, emit: bool) -> usize
    requires { (hour < 100) × (minute < 100) × (second < 100) }
    ensures { Puts emit (between 0x3A (clock (hour ∷ minute ∷ second ∷ []))) at out.old out.new result }
{
    let a = put_two(out, at, hour, emit);
    let b = put_octet(out, a, 0x3A, emit);
    put_pair(out, b, minute, second, 0x3A, emit)
}

fn sign(minus: bool) -> u8
    ensures { result ≡ cond minus 0x2D 0x2B }
{
    if minus { 0x2D } else { 0x2B }
}

fn put_offset(out: &mut [u8], at: usize, minus: bool, halves: u32, emit: bool) -> usize
    requires { halves < 32 }
    ensures { Puts emit (cond minus 0x2D 0x2B ∷ between 0x3A (clock (halves / 2 ∷ halves % 2 * 30 ∷ []))) at out.old out.new result }
{
    let a = put_octet(out, at, sign(minus), emit);
    put_pair(out, a, halves / 2, halves % 2 * 30, 0x3A, emit)
}

pub fn put_time(out: &mut [u8], at: usize, t: Time, emit: bool) -> usize
    requires { in_range t ≡ true }
    ensures { Puts emit (time_text t) at out.old out.new result }
{
    let local = t.local();
    let a = put_date(out, at, days_to(local), emit);
    let b = put_octet(out, a, 0x54, emit);
    let c = put_clock(
        out,
        b,
        local.hour as u32,
        local.minute as u32,
        t.second,
        emit,
    );
    put_offset(out, c, t.minus, t.halves, emit)
}
