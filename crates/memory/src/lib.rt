// Lent memory, read and written with no side condition: a read past the end gives 0, a write past the end does nothing, a counter stops at its last number.
#![tactic(auto)]

pub mod words; // words of 32 bits, and counters
pub mod bytes; // bytes
pub mod lent; // what is left of lent memory
pub mod rows; // sets of numbers below 128, four words each
pub mod layout; // where the tables stand in the work words
