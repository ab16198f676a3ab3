// The lines, put into the output, which is written out where it has no room for another: a print of each word would be a write of its own.
ghost use Rattle.std.specs.Prelude.{◌≤◌, length};

// So much is written at once.
const OUTPUT: usize = 65_536;

// No line is longer.
const LINE: usize = 128;

#[derive(Drop)]
pub struct Lines {
    octets: [u8; OUTPUT],
    used: usize,
    ghost inside: { used ≤ length octets },
}

impl Lines {
    pub fn new() -> Lines {
        Lines {
            octets: [0; OUTPUT],
            used: 0,
        }
    }

    // What standard output doesn't take is lost, and nothing is said of that.
    pub fn write_out(&mut self, rt: &HostRuntime) {
        let _ = rt.write_all(&self.octets[..self.used]);
        self.used = 0;
    }

    pub fn make_room(&mut self, rt: &HostRuntime) {
        if self.octets.len() - self.used < LINE {
            self.write_out(rt);
        }
    }

    pub fn say(&mut self, words: &[u8]) {
        if let Ok(end) = show::put_bytes(&mut self.octets, self.used, words) {
            self.used = end;
        }
    }

    // Octets in hexadecimal.
    pub fn say_hex(&mut self, octets: &[u8]) {
        if let Ok(end) = show::put_hex(&mut self.octets, self.used, octets) {
            self.used = end;
        }
    }

    // A blank and a number.
    pub fn say_field(&mut self, n: usize) {
        self.say(b" ");
        if let Ok(end) = show::put_decimal(&mut self.octets, self.used, n) {
            self.used = end;
        }
    }
}
