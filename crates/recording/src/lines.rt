// The lines of a replay. A line is made in a room of its own, word by word, and then put where it is asked for, whole or not at all.
ghost use Rattle.std.specs.Prelude.{◌≡◌, true, [], ◌∷◌, ◌++◌, ◌+◌, ◌≤◌, length};
ghost use Rattle.octets.specs.Puts.{Puts, Lays};
ghost use Rattle.show.specs.Digits.{decimal};
ghost use Rattle.show.specs.Lines.{line};
ghost use Rattle.recording.specs.Lines.{ok_line, placed, bad_line, answer_line, file_line};

use format::{Counts, Refusal};
use octets::{PutError, copy_into};
use show::{put_bytes, put_decimal};

// No line is longer: four numbers of at most 20 digits, each with the character behind it.
const LONGEST: usize = 84;

const SPACE: u8 = b' ';

const NEWLINE: u8 = b'\n';

// ---- words, each with the character behind it, where there is room for both; a number has at most 20 digits

fn number_word(room: &mut [u8], at: usize, n: usize, behind: u8) -> usize
    requires { at + 21 ≤ length room.old }
    ensures lays { Lays (decimal n ++ (behind ∷ [])) at room.old room.new result }
    ensures upper_bound { result ≤ at + 21 }
{
    match put_decimal(room, at, n) {
        Ok(end) => {
            room[end] = behind;
            end + 1
        }
        Err(_) => at,
    }
}

fn octets_word(room: &mut [u8], at: usize, s: &[u8], behind: u8) -> usize
    requires { at + length s.now + 1 ≤ length room.old }
    ensures lays { Lays (s.now ++ (behind ∷ [])) at room.old room.new result }
    ensures value { result ≡ at + length s.now + 1 }
{
    match put_bytes(room, at, s) {
        Ok(end) => {
            room[end] = behind;
            end + 1
        }
        Err(_) => at,
    }
}

// ---- lines

fn lay_ok(room: &mut [u8; LONGEST], number: usize, count: usize) -> usize
    ensures lays { Lays (ok_line number count) 0 room.old room.new result }
    ensures upper_bound { result ≤ length room.new }
{
    let ok = number_word(room, 0, number, SPACE);
    let last = octets_word(room, ok, b"ok", SPACE);
    number_word(room, last, count, NEWLINE)
}

// The place ends the line of all refusals but 9, where the field comes behind it.
fn lay_place(room: &mut [u8], at: usize, r: Refusal) -> usize
    requires { at + 42 ≤ length room.old }
    ensures lays { Lays (line (placed r)) at room.old room.new result }
    ensures upper_bound { result ≤ at + 42 }
{
    if r.number != 9 {
        return number_word(room, at, r.place, NEWLINE);
    }
    let field = number_word(room, at, r.place, SPACE);
    number_word(room, field, r.field as usize, NEWLINE)
}

fn lay_bad(room: &mut [u8; LONGEST], number: usize, r: Refusal) -> usize
    ensures lays { Lays (bad_line number r) 0 room.old room.new result }
    ensures upper_bound { result ≤ length room.new }
{
    let word = number_word(room, 0, number, SPACE);
    let place = number_word(room, word, r.number as usize, SPACE);
    lay_place(room, place, r)
}

fn lay_answer(room: &mut [u8; LONGEST], number: usize, answer: Result<Counts, Refusal>) -> usize
    ensures lays { Lays (answer_line number answer) 0 room.old room.new result }
    ensures upper_bound { result ≤ length room.new }
{
    match answer {
        Ok(counts) => lay_ok(room, number, counts.records),
        Err(refusal) => lay_bad(room, number, refusal),
    }
}

fn lay_file(room: &mut [u8; LONGEST], r: Refusal) -> usize
    ensures lays { Lays (file_line r) 0 room.old room.new result }
    ensures upper_bound { result ≤ length room.new }
{
    let number = octets_word(room, 0, b"refused", SPACE);
    let place = number_word(room, number, r.number as usize, SPACE);
    number_word(room, place, r.place, NEWLINE)
}

// The line of an object, by its number in the recording and its answer.
pub fn put_answer(
    out: &mut [u8],
    at: usize,
    number: usize,
    answer: Result<Counts, Refusal>,
) -> Result<usize, PutError>
    ensures { Puts true (answer_line number answer) at out.old out.new result }
{
    let mut line = [0u8; LONGEST];
    let end = lay_answer(&mut line, number, answer);
    copy_into(out, at, &line[..end])
}

// The last line of a replay whose recording is refused.
pub fn put_file(out: &mut [u8], at: usize, r: Refusal) -> Result<usize, PutError>
    ensures { Puts true (file_line r) at out.old out.new result }
{
    let mut line = [0u8; LONGEST];
    let end = lay_file(&mut line, r);
    copy_into(out, at, &line[..end])
}
