// The token table of an object.
ghost use Rattle.std.specs.Prelude.{◌≡◌};
ghost use Rattle.survey.specs.Places.{first_table, table_body};

use octets::item_at;

// The body of the first 0x04 among the items of a part; the empty part where there is none, or where an item before it runs past the end.
fn table_in<'a>(part: &'a [u8]) -> &'a [u8]
    ensures { result.now ≡ first_table part.now }
{
    let mut at: usize = 0;
    while at < part.len() {
        let Some(lies) = item_at(part, at) else {
            return &part[0..0];
        };
        if part[at] == 4 {
            return &part[lies.from..lies.to];
        }
        at = lies.to;
    }
    &part[0..0]
}

// The body of the token table of an object: the first 0x04 directly in its top. The empty part where it has none. Nothing is judged.
pub fn table_of<'a>(object: &'a [u8]) -> &'a [u8]
    ensures { result.now ≡ table_body object.now }
{
    let Some(lies) = item_at(object, 0) else {
        return &object[0..0];
    };
    table_in(&object[lies.from..lies.to])
}
