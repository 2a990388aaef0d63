// The fields that a script tree is made of, read and not kept: where each ends, or the refusal that the table in docs/FORM.md gives.
#![tactic(auto)]

pub mod refusal; // why a tree is refused, and where
pub mod number; // numbers, and numbers below a limit
pub mod field; // names, identifiers, bytes, runs of places
pub mod poison; // poisons, by the table of their fields
pub mod counts; // what row 8 counts
