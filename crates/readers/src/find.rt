// What an answered tree holds, found again: it was read once, so that no part of it is refused.
ghost use Rattle.penne.specs.Reader.{nothing};
ghost use Rattle.readers.specs.Naming.{NthDeclaration, Titles, NameAt};

use super::Part;
use fields::counts::Counts;
use fields::field::{bytes, name};
use fields::number::{below, number};
use tree::declaration::declaration;

// Where the declaration stands that is behind n others, the first of which stands at `at`.
#[tactic(auto, using(crate::proofs::Naming::passings), unfolding(penne::specs::Reader::nothing))]
pub fn nth_declaration(tree: &[u8], names: u32, at: usize, n: u32) -> usize
    ensures { NthDeclaration tree.now names nothing at n result }
{
    let mut at = at;
    let mut counts = Counts::NONE;
    for _ in 0..n {
        let Ok((next, more)) = declaration(tree, names, counts, at) else {
            return at;
        };
        (at, counts) = (next, more);
    }
    at
}

// The name number of the declaration that stands at `at`, where it is a structure.
#[tactic(auto, using(crate::proofs::Naming::titles))]
pub fn title(tree: &[u8], names: u32, at: usize) -> Option<u32>
    ensures { Titles tree.now names at result }
{
    let Ok((kind, at)) = below(tree, 6, at) else {
        return None;
    };
    if kind != 3 {
        return None;
    }
    let Ok((_, at)) = below(tree, 32, at) else {
        return None;
    };
    let Ok((_, at)) = number(tree, at) else {
        return None;
    };
    let Ok((name, _)) = name(tree, names, at) else {
        return None;
    };
    Some(name)
}

// Where name n stands, and its length, in the table that begins at `at`.
#[tactic(auto, using(crate::proofs::Naming::seekings))]
pub fn name_at(tree: &[u8], at: usize, n: u32) -> Part
    ensures { NameAt tree.now at n result }
{
    let mut at = at;
    for _ in 0..n {
        let Ok(next) = bytes(tree, at) else {
            return Part::NONE;
        };
        at = next;
    }
    let Ok((length, start)) = number(tree, at) else {
        return Part::NONE;
    };
    let length = length as usize;
    Part { start, length }
}
