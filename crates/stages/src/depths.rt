// The depths of constants and structures, written behind the declarations.
ghost use Rattle.tree.specs.Ends.{Known};
ghost use Rattle.stages.specs.Stages.{DeterminesIn, KeptDepth, NamedDepth, DepthOf, SaysDepths};

use super::heads::{Head, read_head};
use answer::wrote::Wrote;
use containers::depths::{container_depth, determine_container_depths};
use fields::counts::Counts;
use fields::number::below;
use memory::layout::{CONTAINERS, CONTAINERS_END, WORDS};
use tree::ends::past;
use tree::script::Layout;
use walk::edges::find_in;
use walk::state::Script;

pub fn determine_depths(work: &mut [u32], script: &Script)
    ensures { DeterminesIn script.now work.old work.new }
{
    if work.len() < WORDS {
        return;
    }
    let count = script.containers as usize;
    determine_container_depths(&mut work[CONTAINERS..CONTAINERS_END], count);
}

// One depth per declaration.
pub fn then_depths(
    tree: &[u8],
    answer: &mut [u8],
    work: &[u32],
    ends: &[u32],
    script: &Script,
    layout: Layout,
    wrote: Wrote,
) -> Wrote
    ensures { Known tree.now layout.names ends.now → SaysDepths tree.now script.now layout wrote work.now answer.old result answer.new }
{
    let names = layout.names;
    let mut at = layout.first;
    let mut w = wrote;
    let mut counts = Counts::NONE;
    for i in 0..layout.count {
        w = w.then_number(answer, depth_of(tree, work, script, counts, at));
        let Ok((behind, more)) = past(tree, ends, names, counts, at, layout.count - i) else {
            return w;
        };
        at = behind;
        counts = more;
    }
    w
}

// postanalyze: a constant or structure that was kept has a depth.
fn depth_of(tree: &[u8], work: &[u32], script: &Script, counts: Counts, at: usize) -> u32
    ensures { DepthOf tree.now script.now counts at work.now result }
{
    let Ok((kind, at)) = below(tree, 6, at) else {
        return 0;
    };
    let Ok(head) = read_head(tree, script.names, at, kind) else {
        return 0;
    };
    match head {
        Head::Named(h) => named_depth(work, script, kind, h.identifier.name, counts.containers),
        Head::Import | Head::Poison => 0,
    }
}

// Only constants (0) and structures (3) are containers; their kinds are the tree's numbers.
fn named_depth(work: &[u32], script: &Script, kind: u32, name: u32, row: u32) -> u32
    ensures { NamedDepth script.now kind name row work.now result }
{
    match kind {
        0 | 3 => kept_depth(work, script, kind, name, row),
        _ => 0,
    }
}

fn kept_depth(work: &[u32], script: &Script, kind: u32, name: u32, row: u32) -> u32
    ensures { KeptDepth script.now kind name row work.now result }
{
    if work.len() < WORDS {
        return 0;
    }
    let found = find_in(work, *script, kind, name);
    let Some(first) = found else {
        return 0;
    };
    if first != row as usize {
        return 0;
    }
    container_depth(&work[CONTAINERS..CONTAINERS_END], first)
}
