// An accepted object's known items as an indented tree, a line each: the place of the item's tag, its name and its value as the XML has them, plain octets in
// hexadecimal.
//
// A value is put in pieces, since a text may be longer than any memory that is lent: each octet of it stands for itself or for the text of its token.
ghost use Rattle.std.specs.Prelude.{◌+◌, ◌<◌, ◌^◌, length};

use crate::lines::say;
use crate::memory::OBJECT;
use octets::item_at;
use streams::put_in;
use survey::table_of;
use tags::{Listed, listed_as};
use values::Kind;

// No name is longer.
const NAME: usize = 18;

// So many octets of a body are put at once. Each stands for at most 255, and each of these takes at most six, so a room of 24,480 octets suffices. No time,
// bearer or number has as many, so these are put whole.
const PIECE: usize = 16;

// The beginning of a line, in one write: the place in five columns, a blank, two columns for each level, and the name. So many levels may still open.
fn say_name(rt: &HostRuntime, parent: u8, tag: u8, left: usize, place: usize) {
    let margin = 2 * 16usize.saturating_sub(left);
    let mut room = [0u8; NAME];
    let put = xml::put_item_name(&mut room, 0, parent, tag);
    let name = str::from_utf8(put_in(&room, put)).unwrap_or("");
    let _ = print!(rt; "{place:5} {:margin$}{name}", "");
}

// What stands between a name and a value: behind that of an attribute what XML has there, behind that of an element a blank. CDATA has no name.
fn say_mark(rt: &HostRuntime, tag: u8) {
    match format::kind_of(tag) {
        0 => say(rt, b" "),
        1 => say(rt, b"="),
        _ => {}
    }
}

// ---- values

// Characters that could break the line, which aren't printed, stand as XML's references to them.
fn say_printed(rt: &HostRuntime, text: &[u8]) {
    for part in text.split_inclusive(|octet| octet.is_ascii_control()) {
        match part {
            [printed @ .., last] if last.is_ascii_control() => {
                say(rt, printed);
                let _ = print!(rt; "&#{last};");
            }
            _ => say(rt, part),
        }
    }
}

fn say_piece(rt: &HostRuntime, parent: u8, tag: u8, piece: &[u8], table: &[u8]) {
    let mut text = [0u8; OBJECT];
    let put = xml::put_item_value(&mut text, 0, parent, tag, piece, table);
    say_printed(rt, put_in(&text, put));
}

fn say_value(rt: &HostRuntime, parent: u8, tag: u8, body: &[u8], table: &[u8], quote: &[u8]) {
    say_mark(rt, tag);
    say(rt, quote);
    for piece in body.chunks(PIECE) {
        say_piece(rt, parent, tag, piece, table);
    }
    say(rt, quote);
}

fn quote_of(kind: Kind) -> &'static [u8] {
    match kind {
        Kind::HoldsPlain => b"",
        _ => b"\"",
    }
}

// ---- items

// The line of an item, if it has one, and whether the items in it have lines too. So many levels of elements may still open. The token table and items that
// aren't known have no line, as they have no record.
fn say_item(
    rt: &HostRuntime,
    parent: u8,
    tag: u8,
    left: usize,
    body: &[u8],
    table: &[u8],
    place: usize,
) -> bool {
    let listed = listed_as(parent, tag);
    if let Listed::Nothing = listed {
        return false;
    }
    say_name(rt, parent, tag, left, place);
    if let Listed::Value(kind) = listed {
        say_value(rt, parent, tag, body, table, quote_of(kind));
    }
    say(rt, b"\n");
    matches!(listed, Listed::Inside)
}

// One item in an element of a tag: its tag lies at a place of the object and its body from an offset on. No element opens below depth 16 in an accepted object.
#[cycle(show_item_show_items)]
fn show_item(
    rt: &HostRuntime,
    parent: u8,
    tag: u8,
    left: usize,
    body: &[u8],
    table: &[u8],
    place: usize,
    from: usize,
)
    requires { from + length body.now < 2 ^ 63 }
{
    if say_item(rt, parent, tag, left, body, table, place) {
        if left > 0 {
            show_items(rt, tag, left - 1, body, table, from);
        }
    }
}

// The items in a part, which is the body of an element of a tag.
#[cycle(show_item_show_items)]
#[tactic(auto, using(crate::proofs::Ways::item_ways))]
fn show_items(rt: &HostRuntime, parent: u8, left: usize, part: &[u8], table: &[u8], offset: usize)
    requires { offset + length part.now < 2 ^ 63 }
{
    let mut at: usize = 0;
    while at < part.len() {
        let Some(lies) = item_at(part, at) else {
            return;
        };
        show_item(
            rt,
            parent,
            part[at],
            left,
            &part[lies.from..lies.to],
            table,
            offset + at,
            offset + lies.from,
        );
        at = lies.to;
    }
}

// The object itself counts as an element with the tag 0, whose one item is the top at depth 1.
pub fn show_tree(rt: &HostRuntime, object: &[u8]) {
    let table = table_of(object);
    show_items(rt, 0, 16, object, table, 0);
}
