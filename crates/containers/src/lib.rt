// What is predeclared: constants and structures, which contain one another, and functions.
#![tactic(auto)]

pub mod containers; // found_container_1
pub mod depths; // determine_container_depths
pub mod functions; // functions and heads
