// DAB bearers in octets: the fields taken apart and put together by shifts and masks.
ghost use Rattle.std.specs.Prelude.{◌≡◌, true, cond, ◌||◌, ◌+◌, ◌*◌, ◌≤◌, ◌<◌, eqb, leb, length, take, drop, get_or, Some, None};
ghost use Rattle.std.proofs.lemmas.List.Edits.{sets};
ghost use Rattle.octets.specs.Counts.{size_of};
ghost use Rattle.octets.specs.Numbers.{value, digits};
ghost use Rattle.octets.specs.Puts.{Puts};
ghost use Rattle.values.specs.Bearers.{ecc_eid, ensemble_bit, ensemble_octets, bearer_octets};
ghost use Rattle.values.specs.Calls.{taken_bearer, bearer_in_range};

use crate::numbers::{four_at, low, put_four, put_two, two_at};
use crate::{Bearer, Ensemble};
use octets::{Octets, PutError, has_room};

impl Bearer {
    // The bearer that octets hold: of exactly the size that the two flags say.
    pub fn take(s: &[u8]) -> Option<Bearer>
        ensures { result ≡ taken_bearer s.now }
    {
        if s.len() < 3 {
            return None;
        }
        let first = s[0] as u32;
        let present = (first >> 6) & 0x1;
        let long = (first >> 4) & 0x1;
        let size = (3 + 3 * present + 2 * long) as usize;
        if s.len() != size {
            return None;
        }
        let ensemble = ensemble_at(s, present);
        let sid = sid_at(s, present, long);
        Some(Bearer {
            ensemble,
            long: long == 1,
            sid,
            scids: low(first & 0x0F),
        })
    }

    // SCIdS fits four bits, and a service id that is not long fits 16.
    pub fn valid(self) -> bool
        ensures { result ≡ bearer_in_range self }
    {
        if self.scids > 15 {
            return false;
        }
        if self.long {
            return true;
        }
        if self.sid > 0xFFFF {
            return false;
        }
        true
    }

    // How many octets the normal form has.
    pub fn size(self) -> Octets
        ensures { result ≡ size_of (bearer_octets self) }
    {
        let ensemble = self.ensemble;
        let middle = ensemble_size(ensemble);
        if self.long {
            let size = 5 + middle.0;
            return Octets(size);
        }
        let size = 3 + middle.0;
        Octets(size)
    }

    // The normal octets, written from a place on.
    pub fn put(self, out: &mut [u8], at: usize) -> Result<usize, PutError>
        ensures { Puts (bearer_in_range self) (bearer_octets self) at out.old out.new result }
    {
        if !self.valid() {
            return Err(PutError::Invalid);
        }
        let size = self.size();
        if !has_room(Octets(out.len()), at, size) {
            return Err(PutError::NoRoom);
        }
        self.store(out, at);
        Ok(at + size.0)
    }

    fn store(self, out: &mut [u8], at: usize)
        requires self_value { bearer_in_range self ≡ true }
        requires self_in_bounds { at + length (bearer_octets self) ≤ length out.old }
        ensures { out.new ≡ sets out.old at (bearer_octets self) }
    {
        let ensemble = self.ensemble;
        out[at] = first_octet(ensemble, self.long, self.scids);
        let end = put_ensemble(ensemble, out, at + 1);
        put_sid(self.long, self.sid, out, end);
    }
}

// ECC 8 and EId 16, where the flag says that they follow.
fn ensemble_at(s: &[u8], present: u32) -> Option<Ensemble>
    requires present_bound { present < 2 }
    requires present_in_bounds { 3 + 3 * present ≤ length s.now }
    ensures { result ≡ cond (eqb present 1) (Some (ecc_eid (get_or s.now 1 0) (value (take 2 (drop 2 s.now))))) None }
{
    if present == 0 {
        return None;
    }
    let ecc = s[1];
    let eid = two_at(s, 2) as u16;
    Some(Ensemble { ecc, eid })
}

// The service id of 16 or 32 bits, which fills the rest.
fn sid_at(s: &[u8], present: u32, long: u32) -> u32
    requires present_bound { (present < 2) × (long < 2) }
    requires s_len { length s.now ≡ 3 + 3 * present + 2 * long }
    ensures { result ≡ value (drop (1 + 3 * present) s.now) }
{
    let at = (1 + 3 * present) as usize;
    if long == 0 {
        return two_at(s, at);
    }
    four_at(s, at)
}

fn ensemble_size(ensemble: Option<Ensemble>) -> Octets
    ensures result_value { result.0 ≡ length (ensemble_octets ensemble) }
    ensures result_bound { result.0 ≤ 3 }
{
    match ensemble {
        None => Octets(0),
        Some(_) => Octets(3),
    }
}

fn ensemble_flag(ensemble: Option<Ensemble>) -> u32
    ensures result_value { result * 64 ≡ ensemble_bit ensemble }
    ensures upper_bound { result < 2 }
{
    match ensemble {
        None => 0,
        Some(_) => 1,
    }
}

fn long_flag(long: bool) -> u32
    ensures result_value { result * 16 ≡ cond long 16 0 }
    ensures upper_bound { result < 2 }
{
    if long {
        return 1;
    }
    0
}

// Reserved 1, flag of the ensemble 1, reserved 1, flag of a 32-bit service id 1, SCIdS 4.
fn first_octet(ensemble: Option<Ensemble>, long: bool, scids: u8) -> u8
    requires { scids < 16 }
    ensures { result ≡ ensemble_bit ensemble + cond long 16 0 + scids }
{
    low((ensemble_flag(ensemble) << 6) | (long_flag(long) << 4) | (scids as u32))
}

// ECC and EId, where there is an ensemble; the answer is where they end.
fn put_ensemble(ensemble: Option<Ensemble>, out: &mut [u8], at: usize) -> usize
    requires { at + length (ensemble_octets ensemble) ≤ length out.old }
    ensures value { result ≡ at + length (ensemble_octets ensemble) }
    ensures out_after { out.new ≡ sets out.old at (ensemble_octets ensemble) }
{
    let Some(named) = ensemble else {
        return at;
    };
    out[at] = named.ecc;
    put_two(named.eid as u32, out, at + 1);
    at + 3
}

fn put_sid(long: bool, sid: u32, out: &mut [u8], at: usize)
    requires sid_value { long || leb sid 0xFFFF ≡ true }
    requires long_in_bounds { at + cond long 4 2 ≤ length out.old }
    ensures { out.new ≡ sets out.old at (digits (cond long 4 2) sid) }
{
    if long {
        put_four(sid, out, at);
        return;
    }
    put_two(sid, out, at);
}
