// What stands before a declaration's parts: predeclaration, the walk and the depths read it alike.
ghost use Rattle.stages.specs.Heads.{HeadPlaces, Heads};

use fields::field::{Identifier, read_identifier, two_places};
use fields::number::{below, number};
use fields::refusal::Refusal;

// What comes before a declaration's parts: flags, where the places behind them begin, the identifier and where it begins, where the parts begin.
#[derive(Clone, Copy)]
pub struct Start {
    pub flags: u32,
    pub places: usize,
    pub identifier: Identifier,
    pub from: usize,
    pub parts: usize,
}

#[derive(Clone, Copy)]
pub enum Head {
    Named(Start),
    Import,
    Poison,
}

// A structure has one place, the others have two.
pub fn read_head(tree: &[u8], names: u32, at: usize, kind: u32) -> Result<Head, Refusal>
    ensures { Heads tree.now names at kind result }
{
    if kind == 4 {
        return Ok(Head::Import);
    }
    if kind == 5 {
        return Ok(Head::Poison);
    }
    let (flags, places) = below(tree, 32, at)?;
    let from = head_places(tree, places, kind)?;
    let (identifier, parts) = read_identifier(tree, names, from)?;
    Ok(Head::Named(Start {
        flags,
        places,
        identifier,
        from,
        parts,
    }))
}

fn head_places(tree: &[u8], at: usize, kind: u32) -> Result<usize, Refusal>
    ensures { HeadPlaces tree.now at kind result }
{
    if kind == 3 {
        let (_, next) = number(tree, at)?;
        return Ok(next);
    }
    two_places(tree, at)
}
