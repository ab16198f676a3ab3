// Times in octets: the fields taken apart and put together by shifts and masks, local time, canonical form.
ghost use Rattle.std.specs.Prelude.{◌≡◌, true, not, ◌&&◌, ◌+◌, ◌*◌, ◌/◌, ◌%◌, ◌^◌, ◌≤◌, ◌<◌, eqb, length, get_or};
ghost use Rattle.std.proofs.lemmas.List.Edits.{sets};
ghost use Rattle.octets.specs.Counts.{size_of};
ghost use Rattle.octets.specs.Puts.{Puts};
ghost use Rattle.values.specs.Times.{in_range, checked, canonical, sign, time_octets, local_minutes, local_of};
ghost use Rattle.values.specs.Layout.{first_bits, second_octets, offset_octets};
ghost use Rattle.values.specs.Calls.{taken_time};

use crate::numbers::{four_at, low, put_four};
use crate::{Local, Time, TimeError};
use octets::{Octets, PutError, has_room};

impl Time {
    // The time that octets hold: of exactly the size that the two flags say, and in range.
    pub fn take(s: &[u8]) -> Result<Time, TimeError>
        ensures { result ≡ taken_time s.now }
    {
        if s.len() < 4 {
            return Err(TimeError::Length);
        }
        let w = four_at(s, 0);
        let moved = (w >> 12) & 0x1;
        let long = (w >> 11) & 0x1;
        let size = (4 + 2 * long + moved) as usize;
        if s.len() != size {
            return Err(TimeError::Length);
        }
        let second = second_at(s, long);
        let offset = offset_at(s, long, moved);
        let minus = is_minus(offset);
        let t = Time {
            day: (w >> 14) & 0x1_FFFF,
            hour: (w >> 6) & 0x1F,
            minute: w & 0x3F,
            second,
            minus,
            halves: offset & 0x1F,
        };
        t.checked()
    }

    // The time, or else the lowest of its fields that is out of range, whatever its offset is.
    fn checked(self) -> Result<Time, TimeError>
        ensures { result ≡ checked self }
    {
        if self.day > 99_999 {
            return Err(TimeError::Date);
        }
        if self.hour > 23 {
            return Err(TimeError::Hours);
        }
        if self.minute > 59 {
            return Err(TimeError::Minutes);
        }
        if self.second > 59 {
            return Err(TimeError::Seconds);
        }
        Ok(self)
    }

    // Date 0 to 99,999, hours to 23, minutes and seconds to 59, half hours to 31.
    pub fn valid(self) -> bool
        ensures { result ≡ in_range self }
    {
        if self.day > 99_999 {
            return false;
        }
        if self.hour > 23 {
            return false;
        }
        if self.minute > 59 {
            return false;
        }
        if self.second > 59 {
            return false;
        }
        if self.halves > 31 {
            return false;
        }
        true
    }

    // The time of the same meaning that reading gives: minus 0 is 0.
    pub fn canonical(self) -> Time
        ensures { result ≡ canonical self }
    {
        if self.halves != 0 {
            return self;
        }
        Time {
            day: self.day,
            hour: self.hour,
            minute: self.minute,
            second: self.second,
            minus: false,
            halves: 0,
        }
    }

    // UTC plus the offset, whatever the fields hold: the days that the minutes are counted from before day 0 come off again.
    pub fn local(self) -> Local
        ensures { result ≡ local_of self }
    {
        let minutes = self.local_minutes();
        let day = (minutes / 1440) as i64 - self.halves as i64;
        Local {
            day,
            hour: minutes / 60 % 24,
            minute: minutes % 60,
            second: self.second,
        }
    }

    // Minutes of local time from as many days before day 0 as there are half hours: never below 0, and they fit 64 bits.
    fn local_minutes(self) -> u64
        ensures value { result ≡ local_minutes self }
        ensures upper_bound { result < 2 ^ 52 }
    {
        let utc = (self.day as u64 * 24 + self.hour as u64) * 60 + self.minute as u64;
        let halves = self.halves as u64;
        if self.minus {
            return utc + (1440 - 30) * halves;
        }
        utc + (1440 + 30) * halves
    }

    // How many octets the normal form has.
    pub fn size(self) -> Octets
        ensures { result ≡ size_of (time_octets self) }
    {
        if self.second == 0 {
            if self.halves == 0 {
                return Octets(4);
            }
            return Octets(5);
        }
        if self.halves == 0 {
            return Octets(6);
        }
        Octets(7)
    }

    // The normal octets, written from a place on.
    pub fn put(self, out: &mut [u8], at: usize) -> Result<usize, PutError>
        ensures { Puts (in_range self) (time_octets self) at out.old out.new result }
    {
        if !self.valid() {
            return Err(PutError::Invalid);
        }
        let size = self.size();
        if !has_room(Octets(out.len()), at, size) {
            return Err(PutError::NoRoom);
        }
        self.store(out, at);
        Ok(at + size.0)
    }

    fn store(self, out: &mut [u8], at: usize)
        requires self_value { in_range self ≡ true }
        requires self_in_bounds { at + length (time_octets self) ≤ length out.old }
        ensures { out.new ≡ sets out.old at (time_octets self) }
    {
        let first = self.first_bits();
        put_four(first, out, at);
        let end = put_second(self.second, out, at + 4);
        put_offset(self.minus, self.halves, out, end);
    }

    // Reserved 1, date 17, reserved 1, flag of the offset 1, flag of the long form 1, hours 5, minutes 6.
    fn first_bits(self) -> u32
        requires { in_range self ≡ true }
        ensures { result ≡ first_bits self }
    {
        let moved = flag_of(self.halves);
        let long = flag_of(self.second);
        (self.day << 14) | (moved << 12) | (long << 11) | (self.hour << 6) | self.minute
    }
}

// Seconds, where the long form has them.
fn second_at(s: &[u8], long: u32) -> u32
    requires long_bound { long < 2 }
    requires long_in_bounds { 4 + 2 * long ≤ length s.now }
    ensures { result ≡ long * (get_or s.now 4 0 / 4) }
{
    if long == 0 {
        return 0;
    }
    (s[4] as u32) >> 2
}

// The octet of the offset, where there is one.
fn offset_at(s: &[u8], long: u32, moved: u32) -> u32
    requires long_bound { (long < 2) × (moved < 2) }
    requires moved_in_bounds { 4 + 2 * long + moved ≤ length s.now }
    ensures { result ≡ moved * get_or s.now (4 + 2 * long) 0 }
{
    if moved == 0 {
        return 0;
    }
    if long == 0 {
        return s[4] as u32;
    }
    s[6] as u32
}

// The sense of an offset: 1 is minus, and minus 0 is 0.
fn is_minus(offset: u32) -> bool
    ensures { result ≡ eqb (offset / 32 % 2) 1 && not (eqb (offset % 32) 0) }
{
    if (offset >> 5) & 0x1 == 0 {
        return false;
    }
    if offset & 0x1F == 0 {
        return false;
    }
    true
}

// The flag of what is written only where it isn't 0.
fn flag_of(n: u32) -> u32
    ensures { result ≡ sign n }
{
    if n == 0 {
        return 0;
    }
    1
}

// Seconds 6 and reserved 10, where they are not 0; the answer is where they end.
fn put_second(second: u32, out: &mut [u8], at: usize) -> usize
    requires second_bound { second < 64 }
    requires second_in_bounds { at + length (second_octets second) ≤ length out.old }
    ensures value { result ≡ at + length (second_octets second) }
    ensures out_after { out.new ≡ sets out.old at (second_octets second) }
{
    if second == 0 {
        return at;
    }
    out[at] = low(second << 2);
    out[at + 1] = 0;
    at + 2
}

// Reserved 2, sense 1, half hours 5, where they are not 0.
fn put_offset(minus: bool, halves: u32, out: &mut [u8], at: usize)
    requires halves_bound { halves < 32 }
    requires halves_in_bounds { at + length (offset_octets minus halves) ≤ length out.old }
    ensures { out.new ≡ sets out.old at (offset_octets minus halves) }
{
    if halves == 0 {
        return;
    }
    if minus {
        out[at] = low(0x20 | halves);
        return;
    }
    out[at] = low(halves);
}
