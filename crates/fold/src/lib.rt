// Common words folded again (request 2026-11): which words of a normal form are folded, what the packed object of a normal form is, and the check that a
// proposal of any packer passes or not. The plain packer itself is crate packer.
//
// The check is lent no memory and asks nothing of its arguments. Cost: it judges both objects and compares what they mean.
#![tactic(auto)]

ghost use Rattle.std.specs.Prelude.{◌≡◌, Err};
ghost use Rattle.format.specs.Answers.{refusal};
ghost use Rattle.fold.specs.Calls.{check_answer};

use compare::{is_normal, same};
use format::{Refusal, refuse};

fn fails() -> Result<(), Refusal>
    ensures { result ≡ Err (refusal 22 0) }
{
    Err(refuse(22, 0))
}

// Whether the packed object is accepted, has that very normal form and isn't longer: it may be passed on, or 22.
pub fn check(normal: &[u8], packed: &[u8]) -> Result<(), Refusal>
    ensures { result ≡ check_answer normal.now packed.now }
{
    if packed.len() > normal.len() {
        return fails();
    }
    if !is_normal(normal) {
        return fails();
    }
    match same(normal, packed) {
        Ok(true) => Ok(()),
        Ok(false) => fails(),
        Err(_) => fails(),
    }
}
