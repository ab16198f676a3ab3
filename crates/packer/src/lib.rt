// The plain packer of request 2026-11: the words of a normal form's texts, the token table of those that save most, and the object folded by it. What it makes
// of an object is defined in crate fold, where it is proved that whatever it proposes passes the check.
//
// Nothing is lent but the room; arrays of some 45 KB on the stack hold the words. No call asks anything of its arguments.
#![tactic(auto)]

ghost use Rattle.fold.specs.Calls.{PackClaim};

mod collecting;
mod counting;
mod emitting;
mod laying;
mod lookup;
mod making;
mod packing;
mod pieces;
mod ranking;
mod sizing;
mod texts;
mod topping;

use crate::packing::pack_normal;
use compare::is_normal;
use format::{Refusal, refuse};
use octets::Octets;

// Refused: 22 where the object is no normal form, 15 where the packed object is above the room; the room is then as before. Else the packed object, which is
// the normal form itself where folding makes it no shorter.
pub fn pack(object: &[u8], room: &mut [u8]) -> Result<Octets, Refusal>
    ensures { PackClaim object.now room.old room.new result }
{
    if !is_normal(object) {
        return Err(refuse(22, 0));
    }
    pack_normal(object, room)
}
