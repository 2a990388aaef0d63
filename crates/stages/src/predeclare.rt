// "Predeclaration runs over all declarations first": constants, structures, functions and heads take their ids.
ghost use Rattle.tree.specs.Ends.{Known};
ghost use Rattle.stages.specs.Stages.{Pushed, Predeclares, PredeclaresAll};

use super::heads::{Head, read_head};
use containers::containers::{Declared, push_container};
use containers::functions::push_function;
use fields::counts::Counts;
use fields::field::Identifier;
use fields::number::below;
use memory::layout::{CONTAINERS, CONTAINERS_END, FUNCTIONS, FUNCTIONS_END, WORDS};
use memory::words::next;
use tree::ends::past;
use tree::script::Layout;

// What is counted when all is declared, and the next id.
#[derive(Clone, Copy)]
pub struct Predeclared {
    pub counts: Counts,
    pub next_id: u32,
}

pub fn predeclare_all(tree: &[u8], work: &mut [u32], ends: &[u32], layout: Layout) -> Predeclared
    ensures { Known tree.now layout.names ends.now → PredeclaresAll tree.now layout work.old result work.new }
{
    let names = layout.names;
    let mut at = layout.first;
    let mut counts = Counts::NONE;
    let mut next_id = 1u32;
    for i in 0..layout.count {
        next_id = predeclare(tree, work, names, counts, at, next_id);
        let Ok((behind, more)) = past(tree, ends, names, counts, at, layout.count - i) else {
            return Predeclared { counts, next_id };
        };
        at = behind;
        counts = more;
    }
    Predeclared { counts, next_id }
}

// The declaration at `at`; answers the id after it.
fn predeclare(tree: &[u8], work: &mut [u32], names: u32, counts: Counts, at: usize, id: u32) -> u32
    ensures { Predeclares tree.now names counts at id work.old result work.new }
{
    let Ok((kind, at)) = below(tree, 6, at) else {
        return id;
    };
    let Ok(head) = read_head(tree, names, at, kind) else {
        return id;
    };
    match head {
        Head::Named(h) => {
            push(work, kind, counts, h.identifier, id);
            next(id)
        }
        Head::Import | Head::Poison => id,
    }
}

// Constants (0) and structures (3) are containers, all else that has a name is a function; the table keeps the tree's number of the kind.
fn push(work: &mut [u32], kind: u32, counts: Counts, i: Identifier, id: u32)
    ensures { Pushed kind counts i id work.old work.new }
{
    if work.len() < WORDS {
        return;
    }
    let declared = Declared {
        name: i.name,
        place: i.place,
        id,
    };
    let row = counts.containers as usize;
    let place = counts.functions as usize;
    match kind {
        0 | 3 => push_container(&mut work[CONTAINERS..CONTAINERS_END], row, kind, declared),
        _ => push_function(&mut work[FUNCTIONS..FUNCTIONS_END], place, declared),
    }
}
