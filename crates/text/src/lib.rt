// Text, the tokens in it and their table (document 01, Values: Text and Tokens). Every call takes any octets: what is not text, or not a
// table, gets the answer that the definition gives.
#![tactic(auto)]

mod characters;
mod expanding;
mod links;
mod runs;
mod shown;
mod tables;
mod weighing;

pub use characters::{check, is_token};
pub use expanding::{expand, expanded_size, is_covered};
use octets::Characters;
pub use shown::characters_of;
pub use tables::{index_of, is_table, tokens_of, widths_of};
pub use weighing::weigh;

// A text looked at once: whether each of its tokens has an entry (rule 12), and how many characters are shown of it (rule 13).
#[derive(Clone, Copy)]
pub struct Weighed {
    pub covered: bool,
    pub shown: Characters,
}
