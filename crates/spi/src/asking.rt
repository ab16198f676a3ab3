// What a line asks for that is an edit: its word, its numbers, and the octets behind them. Between two of these stands one blank.
ghost use Rattle.std.specs.Prelude.{◌≤◌, length, IfSome};

#[derive(Clone, Copy)]
pub enum Verb {
    Text,
    TextHex,
    Remove,
    Insert,
    InsertFile,
}

impl Verb {
    pub fn named(word: &[u8]) -> Option<Verb> {
        match word {
            b"text" => Some(Verb::Text),
            b"text-hex" => Some(Verb::TextHex),
            b"remove" => Some(Verb::Remove),
            b"insert" => Some(Verb::Insert),
            b"insert-file" => Some(Verb::InsertFile),
            _ => None,
        }
    }

    // An insertion has a place beside the number of a record.
    pub fn has_place(self) -> bool {
        match self {
            Verb::Insert | Verb::InsertFile => true,
            _ => false,
        }
    }
}

// What stands before the first blank, and what behind it.
pub fn split_word(line: &[u8]) -> (&[u8], &[u8]) {
    let mut parts = line.splitn(2, |octet| *octet == b' ');
    let word = parts.next().unwrap_or(&[]);
    (word, parts.next().unwrap_or(&[]))
}

// A number, where the word is one; no record and no place has the greatest that there is.
pub fn number_of(word: &[u8]) -> Option<usize> {
    if word.is_empty() {
        return None;
    }
    let mut value: usize = 0;
    for octet in word {
        let digit = char::from(*octet).to_digit(10)?;
        value = value.saturating_mul(10).saturating_add(digit as usize);
    }
    Some(value)
}

// Hexadecimal digits in pairs, large or small, as octets in a lent buffer.
pub fn octets_in<'a>(digits: &[u8], buf: &'a mut [u8]) -> Option<&'a [u8]>
    ensures { IfSome result (λ octets. length octets.now ≤ length buf.old) }
{
    let octets = buf.get_mut(..digits.len() / 2)?;
    hex::decode_to_slice(digits, octets).ok()?;
    Some(octets)
}
