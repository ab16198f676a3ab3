// What the library says of one object.
ghost use Rattle.std.specs.Prelude.{◌≡◌, ◌≤◌, length, take, Err, IfOk, IfErr};
ghost use Rattle.format.specs.Answers.{write_outcome};

use crate::lines::{refused, say_accepted, say_header, say_passed, say_record, say_records};
use crate::memory::{Memory, PLACES};
use crate::status::{Ended, Stop};
use crate::tree::show_tree;
use format::{Counts, RecordsMut, Refusal};
use octets::Octets;
use pocket::DataType;

// What the judgement counts of an object that it accepts.
pub fn judged(rt: &HostRuntime, path: &[u8], object: &[u8]) -> Result<Counts, Stop> {
    judge::judge(object).map_err(|refusal| refused(rt, path, refusal))
}

// How many octets the normal form of an accepted object has, up to the limit of an object.
fn normal_size(object: &[u8]) -> Option<usize> {
    let sizes = survey::needs_of(object).ok()?.sizes?;
    Some(sizes.octets.0)
}

pub fn check(rt: &HostRuntime, path: &[u8], object: &[u8]) -> Ended {
    let counts = judged(rt, path, object)?;
    say_accepted(rt, path, counts, object.len(), normal_size(object));
    Ok(())
}

// Whether an object may be sent to the small receiver.
pub fn pass(rt: &HostRuntime, path: &[u8], object: &[u8], subject: DataType) -> Ended {
    pocket::gate(object, subject).map_err(|refusal| refused(rt, path, refusal))?;
    say_passed(rt, path);
    Ok(())
}

pub fn list(rt: &HostRuntime, path: &[u8], object: &[u8]) -> Ended {
    let mut records = RecordsMut {
        tags: &mut [0; PLACES],
        kinds: &mut [0; PLACES],
        depths: &mut [0; PLACES],
        parents: &mut [0; PLACES],
        starts: &mut [0; PLACES],
        sizes: &mut [0; PLACES],
    };
    let counts = reader::read(object, &mut records).map_err(|refusal| refused(rt, path, refusal))?;
    say_header(rt);
    for i in 0..counts.records {
        say_record(rt, records.as_records().at(i));
    }
    say_records(rt, counts.records);
    Ok(())
}

pub fn outline(rt: &HostRuntime, path: &[u8], object: &[u8]) -> Ended {
    judged(rt, path, object)?;
    show_tree(rt, object);
    Ok(())
}

// What was written to a lent room.
pub fn written(answer: Result<Octets, Refusal>, lent: &[u8]) -> Result<&[u8], Refusal>
    requires { (write_outcome answer).count ≤ length lent.now }
    ensures made { IfOk result (λ octets. octets.now ≡ take (write_outcome answer).count lent.now) }
    ensures refused { IfErr result (λ refusal. answer ≡ Err refusal) }
{
    let size = answer?;
    Ok(&lent[..size.0])
}

// The normal form of an object in a lent room.
pub fn normal_form<'a>(object: &[u8], lent: &'a mut [u8]) -> Result<&'a [u8], Refusal>
    ensures { IfOk result (λ octets. length octets.now ≤ length lent.old) }
{
    let mut memory = Memory::<PLACES>::new();
    let answer = writer::normalise(
        object,
        &mut memory.tags,
        &mut memory.kinds,
        &mut memory.depths,
        &mut memory.parents,
        &mut memory.starts,
        &mut memory.sizes,
        &mut memory.bodies,
        &mut memory.store,
        lent,
    );
    written(answer, lent)
}

// The XML of an object in a lent room.
#[tactic(auto, using(crate::proofs::Ways::xml_within))]
pub fn xml_text<'a>(object: &[u8], lent: &'a mut [u8]) -> Result<&'a [u8], Refusal>
    ensures { IfOk result (λ octets. length octets.now ≤ length lent.old) }
{
    let answer = xml::export(object, lent);
    written(answer, lent)
}

// The packed object of a normal form in a lent room.
#[tactic(auto, using(crate::proofs::Ways::pack_within))]
pub fn packed_form<'a>(normal: &[u8], lent: &'a mut [u8]) -> Result<&'a [u8], Refusal>
    ensures { IfOk result (λ octets. length octets.now ≤ length lent.old) }
{
    let answer = packer::pack(normal, lent);
    written(answer, lent)
}
