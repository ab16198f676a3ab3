// Records that a caller lends, held against the rules of a well-formed tree (document 01, Refusal numbers: 16), with nothing written.
#![tactic(auto)]

mod check;

pub use check::{is_text_kept, is_well_formed};
