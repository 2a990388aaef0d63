// Types and expressions, which hold parts of their own kind, read and not kept: where each ends, or the refusal that the table in docs/FORM.md gives.
#![tactic(auto)]

pub mod value_type; // types
pub mod node; // expressions, references, steps
