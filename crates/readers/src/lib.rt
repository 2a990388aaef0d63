// scoper.rs: the readers of an answered tree, `get_container_depth`, `is_container`, `get_structure_name`. They need no work memory.
#![tactic(auto)]

pub mod find; // a declaration, a structure's name number, a name of the table

ghost use Rattle.std.specs.Prelude.{◌≡◌};
ghost use Rattle.penne.specs.Scoper.{depth_or, get_container_depth, is_container, get_structure_name};
ghost use Rattle.readers.specs.Asking.{depth_asked, container_asked, NthDepth};
ghost use Rattle.readers.specs.Naming.{name_asked, part_told};

use fields::number::number;
use fields::refusal::{Reason, Refusal};
use find::{name_at, nth_declaration, title};
use name_table::bytes_at;
use tree::answered_layout;

// Where a structure's name stands in the tree, and its length.
#[derive(Clone, Copy)]
pub struct Part {
    pub start: usize,
    pub length: usize,
}

impl Part {
    pub const NONE: Part = Part {
        start: 0,
        length: 0,
    };
}

// The depth of a constant or structure, or `max` where it has none.
#[tactic(auto, using(crate::proofs::Asking::depths))]
pub fn get_container_depth(tree: &[u8], declaration: u32, max: u32) -> Result<u32, Refusal>
    ensures { depth_asked result ≡ get_container_depth tree.now declaration max }
{
    let layout = answered_layout(tree)?;
    if layout.count <= declaration {
        return Err(Reason::NoSuchDeclaration.at(0));
    }
    let depth = nth_depth(tree, layout.depths, declaration)?;
    Ok(depth_or(max, depth))
}

#[tactic(auto, using(crate::proofs::Asking::container_is, crate::proofs::Asking::container_refused))]
pub fn is_container(tree: &[u8], declaration: u32) -> Result<bool, Refusal>
    ensures { container_asked result ≡ is_container tree.now declaration }
{
    let depth = get_container_depth(tree, declaration, u32::MAX)?;
    Ok(depth < u32::MAX)
}

// A depth's number: 2 + d is d, all else the maximum.
#[tactic(auto, using(crate::proofs::Asking::depth_none, crate::proofs::Asking::depth_some))]
fn depth_or(max: u32, depth: u32) -> u32
    ensures { result ≡ depth_or max depth }
{
    if depth < 2 { max } else { depth - 2 }
}

// The depth behind n others.
#[tactic(auto, using(crate::proofs::Asking::skippings))]
fn nth_depth(tree: &[u8], at: usize, n: u32) -> Result<u32, Refusal>
    ensures { NthDepth tree.now at n result }
{
    let mut at = at;
    for _ in 0..n {
        (_, at) = number(tree, at)?;
    }
    let (depth, _) = number(tree, at)?;
    Ok(depth)
}

// A structure's name, as a part of the tree that was lent: empty for a refusal or another kind.
pub fn get_structure_name(tree: &[u8], declaration: u32) -> &[u8]
    ensures { result.now ≡ part_told tree.now (get_structure_name tree.now declaration) }
{
    let Part { start, length } = structure_name_at(tree, declaration).unwrap_or(Part::NONE);
    bytes_at(tree, start, length)
}

// The same by its start and length, both 0 for another kind, or the refusal.
#[tactic(auto, using(crate::proofs::Naming::names))]
pub fn structure_name_at(tree: &[u8], declaration: u32) -> Result<Part, Refusal>
    ensures { name_asked result ≡ get_structure_name tree.now declaration }
{
    let layout = answered_layout(tree)?;
    if layout.count <= declaration {
        return Err(Reason::NoSuchDeclaration.at(0));
    }
    let at = nth_declaration(tree, layout.names, layout.first, declaration);
    let Some(name) = title(tree, layout.names, at) else {
        return Ok(Part::NONE);
    };
    let (_, at) = number(tree, 0)?;
    Ok(name_at(tree, at, name))
}
