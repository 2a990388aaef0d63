// What the second pass does before and behind its walk: it reads the heads of declarations alone.
// The reader let the tree pass, so that all of it can be read again: here a refusal never comes, and where one would, the function stops.
#![tactic(auto)]

pub mod heads; // what stands before a declaration's parts
pub mod before; // was a name declared before
pub mod predeclare; // what is declared before anything is looked at
pub mod names; // the names of the tree
pub mod depths; // one depth for each declaration
