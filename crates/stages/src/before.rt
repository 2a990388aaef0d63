// Was the name of a declaration declared before it?
ghost use Rattle.std.specs.Prelude.{◌<◌};
ghost use Rattle.stages.specs.Before.{ContainerBefore, FunctionBefore, DeclaredBefore};

use fields::field::Identifier;
use walk::edges::{container_at, find_in};
use walk::fault::{Fault, duplicate};
use walk::names::{find_function_in, function_at};
use walk::state::Walk;

// The poison in the place of a declaration whose name was declared before it. Its kind is the number that the tree has and the tables keep: 0 a constant, 3 a structure.
pub fn declared_before(work: &[u32], st: &Walk, kind: u32, i: Identifier) -> Option<Fault>
    ensures { DeclaredBefore kind st.now i work.now result }
{
    match kind {
        0 => container_before(work, st, 0, 3, i),
        3 => container_before(work, st, 3, 8, i),
        _ => function_before(work, st, i),
    }
}

// DuplicateDeclaration of a constant (3) or a structure (8). This declaration's row is what is counted before it.
fn container_before(work: &[u32], st: &Walk, kind: u32, poison: u32, i: Identifier) -> Option<Fault>
    ensures { ContainerBefore kind poison st.now i work.now result }
{
    let row = find_in(work, st.script, kind, i.name)?;
    if row < st.counts.containers as usize {
        let earlier = container_at(work, row);
        return Some(duplicate(poison, i, earlier.place));
    }
    None
}

// DuplicateDeclaration of a function, kind 7.
fn function_before(work: &[u32], st: &Walk, i: Identifier) -> Option<Fault>
    ensures { FunctionBefore st.now i work.now result }
{
    let row = find_function_in(work, st.script, i.name)?;
    if row < st.counts.functions as usize {
        let earlier = function_at(work, row);
        return Some(duplicate(7, i, earlier.place));
    }
    None
}
