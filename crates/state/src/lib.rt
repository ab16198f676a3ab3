// Lent memory that holds a tree: lists and store as a tree takes them (format/specs/State; request 2026-06), with the size of each record's body in normal form in a
// seventh list. Whoever edits such memory or writes from it asks `held` first. No call asks anything of its arguments.
#![tactic(auto)]

mod holding;
mod lent;

pub use holding::{added_by, framed_size, held, item_adds};
pub use lent::Memory;
