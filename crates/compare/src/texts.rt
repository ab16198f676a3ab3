// Two texts under two token tables: whether they expand to the same octets. Nothing is copied: each expansion is gone through where it stands, in pieces that are
// held against each other: an entry of the table under a token, or a run of the text in which no token comes.
ghost use Rattle.std.specs.Prelude.{◌≡◌, ◌&&◌, ◌+◌, ◌^◌, ◌≤◌, ◌<◌, length};
ghost use Rattle.text.specs.Tokens.{expanded};
ghost use Rattle.text.specs.Index.{entries_by};
ghost use Rattle.format.specs.Same.{same_octets};
ghost use Rattle.compare.specs.Bodies.{all_by};
ghost use Rattle.compare.specs.Texts.{Standing, Inside, Opened, ahead, beyond, is_over, shared, Shared, Common};

use octets::Lies;
use text::is_token;

// What is left of an expansion: the octets of the table from one place up to another, and behind them the text from a place on.
#[derive(Clone, Copy)]
struct Rest {
    from: usize,
    to: usize,
    at: usize,
}

// Where the entry lies that stands for an octet. None: the octet stands for itself. By any index of any table: an entry that doesn't lie in the table, or is
// longer than the index says that any is, counts as none, as `expand` has it.
fn entry_of(index: &[usize; 32], table: &[u8], b: u8) -> Option<Lies>
    ensures { Standing (entries_by index.now table.now) table.now b result }
{
    if !is_token(b) {
        return None;
    }
    let from = index[b as usize];
    if from == 0 {
        return None;
    }
    if from > table.len() {
        return None;
    }
    let size = table[from - 1] as usize;
    if size > table.len() - from {
        return None;
    }
    if size > index[0] {
        return None;
    }
    Some(Lies {
        from,
        to: from + size,
    })
}

// The same rest, with the entry of a token that comes next before the text. So what comes next are octets of the table, or one of the text that stands for
// itself, or nothing.
fn opened(index: &[usize; 32], table: &[u8], s: &[u8], rest: Rest) -> Rest
    requires { Inside table.now s.now rest }
    ensures { Opened (entries_by index.now table.now) table.now s.now rest result }
{
    let mut r = rest;
    for at in rest.at..s.len() {
        if r.from < r.to {
            return r;
        }
        let Some(lies) = entry_of(index, table, s[at]) else {
            return r;
        };
        r = Rest {
            from: lies.from,
            to: lies.to,
            at: at + 1,
        };
    }
    r
}

// A rest from a place in its next octets on, which are all of the table or all of the text.
#[tactic(auto, unfolding(crate::specs::Texts::beyond))]
fn beyond(r: Rest, n: usize) -> Rest
    requires n_bound { r.from + n < 2 ^ 64 }
    requires n_bound_2 { r.at + n < 2 ^ 64 }
    ensures { result ≡ beyond r n }
{
    if r.from < r.to {
        return Rest {
            from: r.from + n,
            to: r.to,
            at: r.at,
        };
    }
    Rest {
        from: r.from,
        to: r.to,
        at: r.at + n,
    }
}

// Nothing is left.
#[tactic(auto, unfolding(crate::specs::Texts::is_over))]
fn is_over(s: &[u8], r: Rest) -> bool
    ensures { result ≡ is_over s.now r }
{
    if r.from < r.to {
        return false;
    }
    r.at >= s.len()
}

// Two octets are the same and can be no token.
#[tactic(auto, unfolding(crate::specs::Texts::shared))]
fn is_shared(x: u8, y: u8) -> bool
    ensures { result ≡ shared x y }
{
    (x == y) & (x >= 0x14)
}

// The first eight octets. Nothing is decided between their tests, so that the compiler makes one comparison of all eight.
#[tactic(auto, unfolding(crate::specs::Bodies::all_by))]
fn are_eight_shared(a: &[u8], b: &[u8]) -> bool
    requires in_bounds { 8 ≤ length a.now }
    requires in_bounds_2 { 8 ≤ length b.now }
    ensures { result ≡ all_by shared 8 a.now b.now }
{
    is_shared(a[0], b[0])
        & is_shared(a[1], b[1])
        & is_shared(a[2], b[2])
        & is_shared(a[3], b[3])
        & is_shared(a[4], b[4])
        & is_shared(a[5], b[5])
        & is_shared(a[6], b[6])
        & is_shared(a[7], b[7])
}

// How far two pieces share their octets from the beginning on, by eights alone: a place in both.
fn eights(a: &[u8], b: &[u8]) -> usize
    ensures { Shared a.now b.now result }
{
    let whole = a.len().min(b.len()) / 8;
    for i in 0..whole {
        let n = 8 * i;
        if !are_eight_shared(&a[n..], &b[n..]) {
            return n;
        }
    }
    8 * whole
}

// How far two pieces are the same from the beginning on, up to the second or a later octet that could be a token: by eights as far as they go, then by single
// octets. Where they part is a place in both, or behind the first octet, which is known to stand for itself.
fn common(a: &[u8], b: &[u8]) -> usize
    ensures { Common a.now b.now result }
{
    let end = a.len().min(b.len());
    for n in eights(a, b)..end {
        if a[n] != b[n] {
            return n;
        }
        if a[n] < 0x14 {
            return n.max(1);
        }
    }
    end
}

// How far a piece and what comes next in a rest are the same.
#[tactic(auto, using(octets::proofs::Lists::part_to_end), unfolding(crate::specs::Texts::ahead))]
fn common_with(x: &[u8], table: &[u8], s: &[u8], r: Rest) -> usize
    requires { Inside table.now s.now r }
    ensures { Common x.now (ahead table.now s.now r) result }
{
    let from = r.from;
    let to = r.to;
    let at = r.at;
    if from < to {
        return common(x, &table[from..to]);
    }
    common(x, &s[at..])
}

// How far what comes next in two rests is the same.
#[tactic(auto, using(octets::proofs::Lists::part_to_end), unfolding(crate::specs::Texts::ahead))]
fn common_ahead(table_a: &[u8], a: &[u8], p: Rest, table_b: &[u8], b: &[u8], q: Rest) -> usize
    requires inside { Inside table_a.now a.now p }
    requires inside_2 { Inside table_b.now b.now q }
    ensures { Common (ahead table_a.now a.now p) (ahead table_b.now b.now q) result }
{
    let from = p.from;
    let to = p.to;
    let at = p.at;
    if from < to {
        return common_with(&table_a[from..to], table_b, b, q);
    }
    common_with(&a[at..], table_b, b, q)
}

fn are_over(a: &[u8], p: Rest, b: &[u8], q: Rest) -> bool
    ensures { result ≡ is_over a.now p && is_over b.now q }
{
    if is_over(a, p) {
        return is_over(b, q);
    }
    false
}

// The first text stands under the table `table_a` with the index `index_a`, the second under `table_b` with `index_b`. Any indexes may be given; by those that
// `index_of` makes of the tables the expansions are those by the tables (text/proofs/Index, indexed-expanded).
pub fn same_texts(
    index_a: &[usize; 32],
    table_a: &[u8],
    a: &[u8],
    index_b: &[usize; 32],
    table_b: &[u8],
    b: &[u8],
) -> bool
    ensures { result ≡ same_octets (expanded (entries_by index_a.now table_a.now) a.now) (expanded (entries_by index_b.now table_b.now) b.now) }
{
    let mut p = Rest {
        from: 0,
        to: 0,
        at: 0,
    };
    let mut q = Rest {
        from: 0,
        to: 0,
        at: 0,
    };
    loop {
        p = opened(index_a, table_a, a, p);
        q = opened(index_b, table_b, b, q);
        let n = common_ahead(table_a, a, p, table_b, b, q);
        if n == 0 {
            return are_over(a, p, b, q);
        }
        p = beyond(p, n);
        q = beyond(q, n);
    }
}
