// What the programs share over std: reading until a buffer is full, what was put into a room, and the line that says what failed.
#![tactic(auto)]

ghost use Rattle.std.specs.Prelude.{◌≡◌, ◌≤◌, ◌<◌, length, take, OnOk};
ghost use Rattle.std.specs.Result.{result_unwrap_or};
ghost use Rattle.std.specs.Io.KnownBytes.{Consumes, IsAtEnd};
ghost use Rattle.streams.specs.Failing.{Tells};

use std::io;
use std::io::{Cursor, Error, Read, Write};

// Room for the system's words for an error, with the number that std puts behind them.
const WORDS: usize = 128;

// Reads until the buffer is full, the input ends or reading fails: how many octets were read, and how it ended.
pub fn read_full<R: Read>(from: &mut R, buf: &mut [u8]) -> (usize, io::Result<()>)
    ensures within { result.0 ≤ length buf.new }
    ensures bytes { Consumes (R.remaining from.old) (R.remaining from.new) (take result.0 buf.new) }
    ensures end { OnOk result.1 (result.0 < length buf.new → IsAtEnd (R.remaining from.new)) }
{
    let mut size = 0;
    while size < buf.len() {
        match from.read(&mut buf[size..]) {
            Ok(0) => return (size, Ok(())),
            Ok(more) => size += more,
            Err(error) => return (size, Err(error)),
        }
    }
    (size, Ok(()))
}

// What a call put at the start of a room, by the end that it answers: nothing where it put nothing.
pub fn put_in<E: Drop>(room: &[u8], put: Result<usize, E>) -> &[u8]
    ensures { result.now ≡ take (result_unwrap_or put 0) room.now }
{
    &room[..put.unwrap_or(0).min(room.len())]
}

// The system's words for an error: without its number, and without the room behind them.
fn words_of(said: &str) -> &str {
    said.split_once(" (os error ")
        .map_or(said, |halves| halves.0)
        .trim_end_matches('\0')
}

// A line: what failed, as the caller names it, and the system's words for why. Each piece is put, whether or not the one before it was taken.
pub fn put_failure<W: Write>(to: &mut W, what: &[u8], error: Error) -> io::Result<()>
    ensures { OnOk result (Tells (W.contents to.old) (W.contents to.new) what.now) }
{
    let mut text = Cursor::new([0u8; WORDS]);
    let _ = write!(text, "{error}");
    let said = text.into_inner();
    let words = words_of(str::from_utf8(&said).unwrap_or(""));
    let named = to.write_all(what);
    let marked = to.write_all(b": ");
    let told = to.write_all(words.as_bytes());
    let ended = to.write_all(b"\n");
    named?;
    marked?;
    told?;
    ended
}
