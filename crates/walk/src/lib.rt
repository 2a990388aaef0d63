// What every function of the second pass shares: its state, what it writes whole, and what declares and uses names.
#![tactic(auto)]

pub mod state; // `struct Analyzer` of variable_references.rs, as far as it does not stand in the work words
pub mod fault; // poisons that the pass makes
pub mod items; // identifiers and poisons, as they are read and written
pub mod names; // what declares and uses names
pub mod edges; // what is contained in a constant or a structure
