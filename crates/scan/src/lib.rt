// Reading with no list (request 2026-14), for receivers that can't lend one: how many records and headers an object has, or its refusal with place and field.
// It stands on the judgement alone, and no crate below it is lent a list.
#![tactic(auto)]

ghost use Rattle.std.specs.Prelude.{◌≡◌};
ghost use Rattle.format.specs.Judge.{judge};
ghost use Rattle.format.specs.Headers.{headers_of};
ghost use Rattle.format.specs.Calls.{judge_answer};

use format::{Counts, Refusal};

// The answer of `read` lent lists long enough, for every object (specs/Theorems, ScansAsRead). Nothing is written, and refusal 14 never comes (ScanRefuses).
pub fn scan(object: &[u8]) -> Result<Counts, Refusal>
    ensures { result ≡ judge_answer (headers_of object.now) (judge object.now) }
{
    judge::judge(object)
}
