// The sizes of the elements around an edit: each body grows or shrinks by what the item in it does, with its header, whose form may change too.
ghost use Rattle.std.specs.Prelude.{◌≡◌, ◌+◌, ◌-◌, ◌≤◌, ◌<◌, leb, get_or};
ghost use Rattle.survey.specs.Normal.{framed_size};
ghost use Rattle.edits.specs.Sizes.{raised, up_from, Climbs};

use octets::Octets;
use state::framed_size;

// What a body of a size has where `old` octets of it become `new`.
fn regrown(size: u16, old: Octets, new: Octets) -> Octets
    requires { (old.0 ≤ size) × (new.0 < 65_536) }
    ensures { result.0 ≡ size - old.0 + new.0 }
{
    Octets(size as usize - old.0 + new.0)
}

// Whether the top, with its header, would have no more octets than an object may. Nothing is touched.
pub fn top_fits(parents: &[u16], bodies: &[u16], element: usize, was: Octets, is: Octets) -> bool
    requires { Climbs parents.now bodies.now element was.0 × (is.0 < 65_536) }
    ensures { result ≡ leb (framed_size (get_or (raised (up_from parents.now element) was.0 is.0 bodies.now) 0 0)) 32_768 }
{
    let mut g = element;
    let mut old = was;
    let mut new = is;
    while g > 0 {
        let size = bodies[g];
        let grown = regrown(size, old, new);
        if grown.0 > 32_768 {
            return false;
        }
        old = framed_size(size);
        new = framed_size(grown.0 as u16);
        g = parents[g] as usize;
    }
    let all = regrown(bodies[0], old, new);
    if all.0 > 32_768 {
        return false;
    }
    framed_size(all.0 as u16).0 <= 32_768
}

// The new sizes of all elements around a place, from the innermost to the top.
pub fn raise(parents: &[u16], bodies: &mut [u16], element: usize, was: Octets, is: Octets)
    requires { Climbs parents.now bodies.old element was.0 × (is.0 < 65_536) × (get_or (raised (up_from parents.now element) was.0 is.0 bodies.old) 0 0 ≤ 32_768) }
    ensures { bodies.new ≡ raised (up_from parents.now element) was.0 is.0 bodies.old }
{
    let mut g = element;
    let mut old = was;
    let mut new = is;
    while g > 0 {
        let size = bodies[g];
        let grown = regrown(size, old, new).0 as u16;
        bodies[g] = grown;
        old = framed_size(size);
        new = framed_size(grown);
        g = parents[g] as usize;
    }
    let all = regrown(bodies[0], old, new);
    bodies[0] = all.0 as u16;
}
