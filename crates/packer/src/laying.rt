// Octets laid at a place of a lent slice where they fit, and the place behind them. Nothing is laid that doesn't fit: whoever needs it knows that it does.
ghost use Rattle.std.specs.Prelude.{◌∷◌, ◌<◌};
ghost use Rattle.octets.specs.Header.{length_field};
ghost use Rattle.packer.specs.Laying.{Placed};

use octets::{Octets, copy_into, write_header};

// The header of a body of n octets.
pub fn put_header(out: &mut [u8], at: usize, tag: u8, n: usize) -> usize
    requires { n < 65_536 }
    ensures { Placed (tag ∷ length_field n) out.old out.new at result }
{
    write_header(out, at, tag, Octets(n)).unwrap_or(at)
}

// Octets as they stand.
pub fn put_octets(out: &mut [u8], at: usize, s: &[u8]) -> usize
    ensures { Placed s.now out.old out.new at result }
{
    copy_into(out, at, s).unwrap_or(at)
}
