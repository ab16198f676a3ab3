// Files read and written whole. What fails is said on standard error, in the system's words, just after it failed.
ghost use Rattle.std.specs.Prelude.{◌≤◌, length, IfOk};

use crate::failing::complain;
use crate::memory::NAME;
use crate::status::{Ended, Stop};
use std::env::{Env, FillError};
use std::fs::{File, OpenOptions};
use std::io::{Cursor, Error, Write};
use std::{fs, io, process};
use streams::{put_failure, read_full};

// The longest name of an output, so that the name beside it fits a path.
const LONGEST: usize = 4_000;

// The longest name that the system takes.
const LONGEST_PATH: usize = 4_095;

// The system's numbers for a name that has a 0 in it, is too long, or is no text.
const INVALID: i32 = 22;

const TOO_LONG: i32 = 36;

const NO_TEXT: i32 = 84;

fn failed(rt: &HostRuntime, what: &[u8], error: Error) -> Stop {
    let _ = put_failure(&mut rt.stderr(), what, error);
    Stop::Failed
}

// ---- names, as std takes them: text. Of what is none the system's words say why.

fn text_of(path: &[u8]) -> io::Result<&str> {
    if path.len() > LONGEST_PATH {
        return Err(Error::from_raw_os_error(TOO_LONG));
    }
    if path.contains(&0) {
        return Err(Error::from_raw_os_error(INVALID));
    }
    str::from_utf8(path).map_err(|_| Error::from_raw_os_error(NO_TEXT))
}

fn open(rt: &HostRuntime, path: &[u8]) -> io::Result<File> {
    File::open(rt, text_of(path)?)
}

// A file that isn't there yet.
fn create(rt: &HostRuntime, path: &[u8]) -> io::Result<File> {
    OpenOptions::new()
        .write(true)
        .create_new(true)
        .open(rt, text_of(path)?)
}

// Where it can't be removed it stays, and nothing is said of that.
fn remove(rt: &HostRuntime, path: &[u8]) {
    if let Ok(text) = text_of(path) {
        let _ = fs::remove_file(rt, text);
    }
}

fn rename(rt: &HostRuntime, from: &[u8], to: &[u8]) -> io::Result<()> {
    fs::rename(rt, text_of(from)?, text_of(to)?)
}

// ---- files read, each into a lent buffer until that is full or the file ends

fn read_file<'a>(rt: &HostRuntime, path: &[u8], buf: &'a mut [u8]) -> io::Result<&'a [u8]>
    ensures { IfOk result (λ octets. length octets.now ≤ length buf.old) }
{
    let (size, ended) = read_full(&mut open(rt, path)?, buf);
    ended?;
    Ok(&buf[..size])
}

pub fn load<'a>(rt: &HostRuntime, path: &[u8], buf: &'a mut [u8]) -> Result<&'a [u8], Stop>
    ensures { IfOk result (λ octets. length octets.now ≤ length buf.old) }
{
    read_file(rt, path, buf).map_err(|error| failed(rt, path, error))
}

// Standard input. A buffer that it fills may not hold all of it, so that is a failure.
pub fn load_input<'a>(rt: &HostRuntime, buf: &'a mut [u8]) -> Result<&'a [u8], Stop>
    ensures { IfOk result (λ octets. length octets.now ≤ length buf.old) }
{
    let (size, ended) = read_full(&mut rt.stdin(), buf);
    if let Err(error) = ended {
        return Err(failed(rt, b"spi: standard input", error));
    }
    if size == buf.len() {
        complain(rt, b"spi: standard input is too long\n");
        return Err(Stop::Failed);
    }
    Ok(&buf[..size])
}

// ---- arguments

// How many there are, with the program's name.
pub fn argument_count(rt: &HostRuntime) -> usize {
    for i in 0..usize::MAX {
        if let Err(FillError::NotPresent) = rt.arg(i, &mut []) {
            return i;
        }
    }
    usize::MAX
}

// An argument at the start of a buffer: nothing where there is none, or none that fits.
pub fn argument<'a>(rt: &HostRuntime, i: usize, buf: &'a mut [u8]) -> &'a [u8]
    ensures { length result.now ≤ length buf.old }
{
    let size = rt.arg(i, buf).unwrap_or(0);
    &buf[..size]
}

// What is said of a name that is no argument, or too long.
fn name_error(error: FillError) -> Error {
    match error {
        FillError::NotPresent => Error::from_raw_os_error(INVALID),
        FillError::TooLong => Error::from_raw_os_error(TOO_LONG),
    }
}

// The argument that names a file.
pub fn file_argument<'a>(rt: &HostRuntime, i: usize, buf: &'a mut [u8]) -> Result<&'a [u8], Stop>
    ensures { IfOk result (λ octets. length octets.now ≤ length buf.old) }
{
    match rt.arg(i, buf) {
        Ok(size) => Ok(&buf[..size]),
        Err(error) => Err(failed(rt, b"spi: a file's name", name_error(error))),
    }
}

// ---- files written

// Octets to a new file, until they are on its device. The file is closed then.
fn fill(mut file: File, octets: &[u8]) -> io::Result<()> {
    file.write_all(octets)?;
    file.sync_all()
}

// A file filled and given its name; where that fails it is removed.
fn put_in_place(
    rt: &HostRuntime,
    file: File,
    beside: &[u8],
    path: &[u8],
    octets: &[u8],
) -> io::Result<()> {
    let placed = fill(file, octets).and_then(|()| rename(rt, beside, path));
    if placed.is_err() {
        remove(rt, beside);
    }
    placed
}

// To a file beside the one asked for, which then takes its name. That file's name has this process's number, which no other has that runs beside it.
fn save_beside(rt: &HostRuntime, path: &[u8], octets: &[u8]) -> io::Result<()> {
    let mut name = Cursor::new([0u8; NAME]);
    name.write_all(path)?;
    write!(name, ".{}.new", process::id(rt.process()))?;
    let end = name.position() as usize;
    let room = name.into_inner();
    let beside = room.get(..end).unwrap_or(&[]);
    put_in_place(rt, create(rt, beside)?, beside, path, octets)
}

// The octets are written to a file beside the one asked for, which then takes its name: that file is complete, or as it was. The script ./spi asks first that
// the name is no link's, folder's or device's.
pub fn save(rt: &HostRuntime, path: &[u8], octets: &[u8]) -> Ended {
    if path.is_empty() || path.len() > LONGEST {
        complain(rt, b"spi: the output has no name, or too long a name\n");
        return Err(Stop::Failed);
    }
    save_beside(rt, path, octets).map_err(|error| failed(rt, path, error))
}
