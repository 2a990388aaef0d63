// The state of the second pass. Tables stand in the work words.
use answer::wrote::Wrote;
use fields::counts::Counts;
use scopes::scope::Scope;

// What does not change once all is predeclared: how many names, constants and structures, functions there are, and which name is `main` (as many as there are names, where none is).
#[derive(Clone, Copy)]
pub struct Script {
    pub names: u32,
    pub main: u32,
    pub containers: u32,
    pub functions: u32,
}

// The variables in scope, the next id, and `in_constexpr_of_constant`: the constant's row.
#[derive(Clone, Copy)]
pub struct Tables {
    pub scope: Scope,
    pub next_id: u32,
    pub constant: Option<u32>,
}

// Where the walk reads, how far answer and list are written, what is counted so far.
#[derive(Clone, Copy)]
pub struct Walk {
    pub at: usize,
    pub wrote: Wrote,
    pub listed: Wrote,
    pub counts: Counts,
    pub tables: Tables,
    pub script: Script,
}
