// A text folded by a token table: measured, and written.
ghost use Rattle.std.specs.Prelude.{◌≡◌, true, ◌≤◌, length};
ghost use Rattle.text.specs.Tokens.{entries};
ghost use Rattle.fold.specs.Words.{all_letters};
ghost use Rattle.fold.specs.Packed.{tagged, folded};
ghost use Rattle.packer.specs.Laying.{Placed};

use crate::laying::put_octets;
use crate::lookup::tag_of;
use crate::pieces::{is_word_size, piece_end};

#[tactic(auto, using(crate::proofs::Measuring::size_ways))]
fn piece_size(table: &[u8], w: &[u8]) -> usize
    requires { 2 ≤ length w.now → all_letters w.now ≡ true }
    ensures { result ≡ length (tagged (entries table.now) w.now) }
{
    if !is_word_size(w.len()) {
        return w.len();
    }
    match tag_of(table, w) {
        None => w.len(),
        Some(_) => 1,
    }
}

pub fn folded_size(table: &[u8], s: &[u8]) -> usize
    ensures { result ≡ length (folded (entries table.now) s.now) }
{
    let mut size: usize = 0;
    let mut at: usize = 0;
    while at < s.len() {
        let end = piece_end(s, at);
        size += piece_size(table, &s[at..end]);
        at = end;
    }
    size
}

fn put_piece(table: &[u8], w: &[u8], out: &mut [u8], at: usize) -> usize
    requires { 2 ≤ length w.now → all_letters w.now ≡ true }
    ensures { Placed (tagged (entries table.now) w.now) out.old out.new at result }
{
    if !is_word_size(w.len()) {
        return put_octets(out, at, w);
    }
    match tag_of(table, w) {
        None => put_octets(out, at, w),
        Some(tag) => put_octets(out, at, &[tag]),
    }
}

pub fn put_text(table: &[u8], s: &[u8], out: &mut [u8], at: usize) -> usize
    ensures { Placed (folded (entries table.now) s.now) out.old out.new at result }
{
    let mut to = at;
    let mut i: usize = 0;
    while i < s.len() {
        let end = piece_end(s, i);
        to = put_piece(table, &s[i..end], out, to);
        i = end;
    }
    to
}
