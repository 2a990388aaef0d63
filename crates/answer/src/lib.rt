// The answered tree, written part by part into the rest of a lent buffer.
#![tactic(auto)]

pub mod wrote; // the cursor, which stops where the room ends
pub mod number; // numbers, and runs of numbers
pub mod identifier; // identifiers
pub mod copy; // bytes, and parts of the tree that came in
pub mod poison; // poisons, by the table of their fields
pub mod record; // the skip list
