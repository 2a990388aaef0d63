// The variables in scope, and what gotos and labels do to them: `variable_stack`, `unresolved_labels`, `pruned_variables` and `poisoned_variables` of variable_references.rs.
// A table is the part SCOPES of the work words.
#![tactic(auto)]

pub mod scope; // opening, closing, declaring, finding
pub mod pruning; // gotos, labels, and what became of a variable
