// A count of octets and a count of characters. Each is a type of its own, so that neither is taken for the other wherever it is handed on, and nothing turns one
// into the other: rule 13 compares characters, a store and a room compare octets (document 01 as change request 2026-01 amends it). Places, and the lengths of
// slices, are plain numbers.
#[derive(Clone, Copy)]
pub struct Octets(pub usize);

#[derive(Clone, Copy)]
pub struct Characters(pub usize);
