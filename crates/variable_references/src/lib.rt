// The second pass: variable_references.rs. It reads the tree again, which the reader let pass, so that no refusal comes; and it writes the answer as it goes.
#![tactic(auto)]

pub mod declaration; // declarations
pub mod script; // the whole tree
