// The whole tree: names, declarations, depths.
ghost use Rattle.std.specs.Prelude.{get_or};
ghost use Rattle.penne.specs.Reader.{many};
ghost use Rattle.penne.specs.Read.{read_decl, decl_kinds, k_bad_decl};
ghost use Rattle.fields.specs.Answers.{Gives, Passes};
ghost use Rattle.tree.specs.Ends.{Known, Remembers};
ghost use Rattle.tree.specs.Script.{Lays, depth_by, IncomingDepths, AnsweredDepths};

use super::declaration::declaration;
use super::ends::note;
use fields::counts::Counts;
use fields::number::{below, number};
use fields::refusal::{Reason, Refusal};
use name_table::name_table;

// Where the parts of a tree stand: how many names, how many declarations, the first declaration, the first depth.
#[derive(Clone, Copy)]
pub struct Layout {
    pub names: u32,
    pub count: u32,
    pub first: usize,
    pub depths: usize,
}

// The tree up to its depths. It is noted where each declaration ends.
#[tactic(auto, using(crate::proofs::Scripts::lays))]
pub fn lay_out(tree: &[u8], ends: &mut [u32]) -> Result<Layout, Refusal>
    ensures { Lays tree.now result × Remembers tree.now ends.old result ends.new }
{
    let (names, at) = number(tree, 0)?;
    if 1024 < names {
        return Err(Reason::TooMany.at(0));
    }
    let at = name_table(tree, names, at)?;
    let (count, first) = number(tree, at)?;
    let (depths, _) = declarations(tree, ends, names, Counts::NONE, count, first)?;
    Ok(Layout {
        names,
        count,
        first,
        depths,
    })
}

// So many declarations, each noted in the row of its number, counted from the last.
pub fn declarations(
    tree: &[u8],
    ends: &mut [u32],
    names: u32,
    counts: Counts,
    count: u32,
    at: usize,
) -> Result<(usize, Counts), Refusal>
    ensures { Passes (many read_decl count) tree.now names counts at result × (Known tree.now names ends.old → Known tree.now names ends.new) }
{
    let mut at = at;
    let mut counts = counts;
    for done in 0..count {
        let (next, more) = declaration(tree, names, counts, at)?;
        note(ends, count - done, counts, at, next, more);
        at = next;
        counts = more;
    }
    Ok((at, counts))
}

// A depth for each of so many declarations, all 0.
#[tactic(auto, using(crate::proofs::Depths::comings))]
pub fn incoming_depths(tree: &[u8], count: u32, at: usize) -> Result<usize, Refusal>
    ensures { IncomingDepths tree.now count at result }
{
    let mut at = at;
    for _ in 0..count {
        (_, at) = below(tree, 1, at)?;
    }
    Ok(at)
}

// An answered depth, by the kind of its declaration.
#[tactic(auto, using(crate::proofs::Depths::depth_rest), unfolding(crate::specs::Script::depth_by, penne::specs::Read::decl_kinds))]
fn depth_of(tree: &[u8], kind: u32, at: usize) -> Result<(u32, usize), Refusal>
    ensures { Gives (depth_by (get_or decl_kinds kind k_bad_decl)) tree.now at result }
{
    match kind {
        0 | 3 => number(tree, at),
        _ => below(tree, 1, at),
    }
}

// The depths of an answered tree. The declarations are read again beside them, since no memory holds their kinds.
#[tactic(auto, using(crate::proofs::Depths::agains), unfolding(penne::specs::Reader::nothing))]
pub fn answered_depths(tree: &[u8], layout: Layout) -> Result<usize, Refusal>
    ensures { AnsweredDepths tree.now layout result }
{
    let mut declared = layout.first;
    let mut counts = Counts::NONE;
    let mut at = layout.depths;
    for _ in 0..layout.count {
        let (kind, _) = below(tree, 6, declared)?;
        (declared, counts) = declaration(tree, layout.names, counts, declared)?;
        (_, at) = depth_of(tree, kind, at)?;
    }
    Ok(at)
}
