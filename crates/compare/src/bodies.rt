// The bodies of two items of one kind: whether they mean the same value (document 01, Values). Texts stand each under its own token table; no other kind needs
// one.
ghost use Rattle.std.specs.Prelude.{◌≡◌, ◌&&◌};
ghost use Rattle.text.specs.Index.{entries_by};
ghost use Rattle.values.specs.declared.Kind.TheVariants.{HoldsTime, HoldsBearer};
ghost use Rattle.values.specs.Values.{fits};
ghost use Rattle.format.specs.Same.{same_octets};
ghost use Rattle.compare.specs.Bodies.{Tells, same_body, same_standing};

use crate::texts::same_texts;
use values::{Bearer, Ensemble, Kind, Time, fits_kind};

// Octets as they stand.
#[tactic(auto, using(crate::proofs::Telling::octets_told))]
pub fn same_octets(a: &[u8], b: &[u8]) -> bool
    ensures { result ≡ same_octets a.now b.now }
{
    a == b
}

fn are_ensembles_same(a: Option<Ensemble>, b: Option<Ensemble>) -> bool
    ensures { Tells a b result }
{
    match a {
        None => b.is_none(),
        Some(e) => match b {
            None => false,
            Some(f) => e == f,
        },
    }
}

// Kept: the fields by hand and not the derived `==` of a bearer, since what that says of an ensemble, which is an Option, can't be opened in a proof here (tried).
fn are_bearers_same(a: Bearer, b: Bearer) -> bool
    ensures { Tells a b result }
{
    if a.sid != b.sid {
        return false;
    }
    if a.scids != b.scids {
        return false;
    }
    if a.long != b.long {
        return false;
    }
    are_ensembles_same(a.ensemble, b.ensemble)
}

fn same_times(a: &[u8], b: &[u8]) -> bool
    ensures { result ≡ same_standing HoldsTime a.now b.now }
{
    let Ok(t) = Time::take(a) else {
        return false;
    };
    let Ok(u) = Time::take(b) else {
        return false;
    };
    t == u
}

fn same_bearers(a: &[u8], b: &[u8]) -> bool
    ensures { result ≡ same_standing HoldsBearer a.now b.now }
{
    let Some(c) = Bearer::take(a) else {
        return false;
    };
    let Some(d) = Bearer::take(b) else {
        return false;
    };
    are_bearers_same(c, d)
}

// Kinds that mean their octets, numbers too: two numbers of one width are the same exactly where their octets are.
fn same_plainly(kind: Kind, a: &[u8], b: &[u8]) -> bool
    ensures { result ≡ fits kind a.now && fits kind b.now && same_octets a.now b.now }
{
    if !fits_kind(kind, a) {
        return false;
    }
    if !fits_kind(kind, b) {
        return false;
    }
    same_octets(a, b)
}

// Octets that are no value of the kind are the same as none, not even as themselves; no accepted object has such.
pub fn same_bodies(
    kind: Kind,
    index_a: &[usize; 32],
    table_a: &[u8],
    a: &[u8],
    index_b: &[usize; 32],
    table_b: &[u8],
    b: &[u8],
) -> bool
    ensures { result ≡ same_body (entries_by index_a.now table_a.now) (entries_by index_b.now table_b.now) kind a.now b.now }
{
    match kind {
        Kind::HoldsText => same_texts(index_a, table_a, a, index_b, table_b, b),
        Kind::HoldsTime => same_times(a, b),
        Kind::HoldsBearer => same_bearers(a, b),
        Kind::HoldsItems => same_plainly(kind, a, b),
        Kind::HoldsTokens => same_plainly(kind, a, b),
        Kind::HoldsPlain => same_plainly(kind, a, b),
        Kind::HoldsNumber(_) => same_plainly(kind, a, b),
    }
}
