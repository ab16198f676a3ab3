// Attributes with a default, which mean the same as none (change request 2026-05).
ghost use Rattle.std.specs.Prelude.{◌≡◌, ◌||◌, eqb};
ghost use Rattle.values.specs.Table.{defaults, default_in};
ghost use Rattle.values.specs.Calls.{default_octets};

// Recommendation and broadcast, of programme and programmeEvent.
fn is_flag(tag: u8) -> bool
    ensures { result ≡ (eqb tag 0x83 || eqb tag 0x84) }
{
    if tag == 0x83 {
        return true;
    }
    tag == 0x84
}

// An attribute of an element that has a default: type of genre, and those two. The default of each is the number 1.
fn has_default(parent: u8, tag: u8) -> bool
    ensures { result ≡ default_in parent tag 1 defaults }
{
    if parent == 0x14 {
        return tag == 0x81;
    }
    if parent == 0x1C {
        return is_flag(tag);
    }
    if parent == 0x2E {
        return is_flag(tag);
    }
    false
}

// The octets of an attribute of an element are its default.
pub fn is_default(parent: u8, tag: u8, s: &[u8]) -> bool
    ensures { result ≡ default_octets parent tag s.now }
{
    if s.len() != 1 {
        return false;
    }
    if s[0] != 1 {
        return false;
    }
    has_default(parent, tag)
}
