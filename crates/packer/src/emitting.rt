// The items of an object with folded texts, laid into a lent room. Nothing is laid that doesn't fit.
ghost use Rattle.std.specs.Prelude.{◌<◌, length};
ghost use Rattle.text.specs.Tokens.{entries};
ghost use Rattle.packer.specs.Emitting.{ItemEmitted, ItemsEmitted};

use crate::collecting::{Sort, sort_of};
use crate::laying::{put_header, put_octets};
use crate::sizing::size_items;
use crate::texts::{folded_size, put_text};
use octets::item_at;

// One item in an element of a tag. The length of what an element holds is measured before its header is laid.
#[cycle(emit_item_emit_items)]
pub fn emit_item(
    parent: u8,
    tag: u8,
    left: usize,
    body: &[u8],
    table: &[u8],
    out: &mut [u8],
    at: usize,
) -> usize
    requires { length body.now < 32_768 }
    ensures { ItemEmitted (entries table.now) parent tag left body.now out.old out.new at result }
{
    match sort_of(parent, tag) {
        Sort::Nothing => at,
        Sort::Items => {
            if left == 0 {
                return at;
            }
            let size = size_items(tag, left - 1, body, table);
            let from = put_header(out, at, tag, size);
            emit_items(tag, left - 1, body, table, out, from)
        }
        Sort::Text => {
            let size = folded_size(table, body);
            let from = put_header(out, at, tag, size);
            put_text(table, body, out, from)
        }
        Sort::Plain => {
            let from = put_header(out, at, tag, body.len());
            put_octets(out, from, body)
        }
    }
}

// The items in a part, which is the body of an element of a tag.
#[cycle(emit_item_emit_items)]
pub fn emit_items(
    parent: u8,
    left: usize,
    part: &[u8],
    table: &[u8],
    out: &mut [u8],
    at: usize,
) -> usize
    requires { length part.now < 32_768 }
    ensures { ItemsEmitted (entries table.now) parent left part.now out.old out.new at result }
{
    let mut end = at;
    let mut i: usize = 0;
    while i < part.len() {
        let Some(lies) = item_at(part, i) else {
            return end;
        };
        end = emit_item(
            parent,
            part[i],
            left,
            &part[lies.from..lies.to],
            table,
            out,
            end,
        );
        i = lies.to;
    }
    end
}
