// Octets as numbers and numbers as octets, by shifts and masks. The module is this crate's own: no other crate can call what stands here.
ghost use Rattle.std.specs.Prelude.{◌≡◌, ◌+◌, ◌%◌, ◌≤◌, ◌<◌, length, take, drop};
ghost use Rattle.std.proofs.lemmas.List.Edits.{sets};
ghost use Rattle.octets.specs.Numbers.{value, digits};

// Two octets from a place on, as a number.
pub fn two_at(s: &[u8], at: usize) -> u32
    requires { at + 2 ≤ length s.now }
    ensures value { result ≡ value (take 2 (drop at s.now)) }
    ensures upper_bound { result < 65536 }
{
    let high = s[at] as u32;
    let low = s[at + 1] as u32;
    (high << 8) | low
}

// Four octets from a place on, as a number.
pub fn four_at(s: &[u8], at: usize) -> u32
    requires { at + 4 ≤ length s.now }
    ensures { result ≡ value (take 4 (drop at s.now)) }
{
    let high = two_at(s, at);
    let low = two_at(s, at + 2);
    (high << 16) | low
}

// The low eight bits.
pub fn low(n: u32) -> u8
    ensures { result ≡ n % 256 }
{
    (n & 0xFF) as u8
}

// A number of 16 bits in two octets.
pub fn put_two(n: u32, out: &mut [u8], at: usize)
    requires n_bound { n < 65536 }
    requires at_in_bounds { at + 2 ≤ length out.old }
    ensures { out.new ≡ sets out.old at (digits 2 n) }
{
    out[at] = low(n >> 8);
    out[at + 1] = low(n);
}

// A number of 32 bits in four octets.
pub fn put_four(n: u32, out: &mut [u8], at: usize)
    requires { at + 4 ≤ length out.old }
    ensures { out.new ≡ sets out.old at (digits 4 n) }
{
    put_two(n >> 16, out, at);
    put_two(n & 0xFFFF, out, at + 2);
}
