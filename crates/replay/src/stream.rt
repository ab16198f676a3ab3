// The recording on standard input, read in pieces into a buffer that has room for the longest piece of it that is looked at in one.
ghost use Rattle.std.specs.Prelude.{◌≡◌, ◌+◌, ◌-◌, ◌≤◌, length};

use streams::{put_failure, read_full};

// About twice the longest piece, so that what is left is seldom moved.
const INPUT: usize = 131_072;

// No piece is longer: a size and an object.
const LONGEST_PIECE: usize = 65_537;

// Whether there may be more to read.
#[derive(Clone, Copy, PartialEq, Eq)]
enum Source {
    Open,
    Ended,
    Failed,
}

// The part of the buffer that is not listed yet lies between two places; the offset is that in the recording at which it begins.
#[derive(Drop)]
pub struct Stream {
    octets: [u8; INPUT],
    from: usize,
    to: usize,
    offset: usize,
    source: Source,
    ghost rising: { from ≤ to },
    ghost inside: { to ≤ length octets },
}

impl Stream {
    pub fn new() -> Stream {
        Stream {
            octets: [0; INPUT],
            from: 0,
            to: 0,
            offset: 0,
            source: Source::Open,
        }
    }

    // A whole piece in the buffer, or all that is left of the recording. What is not listed yet goes to the start of the buffer before more is read.
    pub fn fetch(&mut self, rt: &HostRuntime) {
        if self.source != Source::Open || self.to - self.from >= LONGEST_PIECE {
            return;
        }
        self.octets.copy_within(self.from..self.to, 0);
        self.to -= self.from;
        self.from = 0;
        self.read_on(rt);
    }

    // A failure is said on standard error, in the system's words.
    fn read_on(&mut self, rt: &HostRuntime) {
        let (more, ended) = read_full(&mut rt.stdin(), &mut self.octets[self.to..]);
        self.to += more;
        if let Err(error) = ended {
            let _ = put_failure(&mut rt.stderr(), b"replay: standard input", error);
            self.source = Source::Failed;
        } else if self.to < self.octets.len() {
            self.source = Source::Ended;
        }
    }

    // What is not listed yet.
    pub fn window(&self) -> &[u8]
        ensures { length result.now ≡ self.now.to - self.now.from }
    {
        &self.octets[self.from..self.to]
    }

    // Nothing follows the window, as far as anyone knows.
    pub fn is_last(&self) -> bool {
        self.source != Source::Open
    }

    pub fn has_failed(&self) -> bool {
        self.source == Source::Failed
    }

    pub fn offset(&self) -> usize {
        self.offset
    }

    // A piece at the start of the window is behind it. No recording is so long that the offset wraps.
    pub fn pass(&mut self, size: usize)
        requires { size ≤ self.old.to - self.old.from }
        ensures from { self.new.from ≡ self.old.from + size }
        ensures to { self.new.to ≡ self.old.to }
        ensures octets { self.new.octets ≡ self.old.octets }
    {
        self.from += size;
        self.offset = self.offset.wrapping_add(size);
    }
}
