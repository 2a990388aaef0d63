// Fields that are more than a number: names, identifiers, bytes.
ghost use Rattle.penne.specs.Reader.{raw, bytes};
ghost use Rattle.penne.specs.Read.{name, ident, place};
ghost use Rattle.fields.specs.Answers.{Reads, Ends, Skips, Identifies, identifier_and_number, bytes_and_place, two_places, operator};

use super::number::{below, number, past_number};
use super::refusal::{Reason, Refusal};

#[derive(Clone, Copy)]
pub struct Identifier {
    pub name: u32,
    pub place: u32,
    pub id: u32,
    pub authority: u32,
}

// A name number, which is in the table of so many names.
#[tactic(auto, using(crate::proofs::Numbers::name_is))]
pub fn name(tree: &[u8], names: u32, at: usize) -> Result<(u32, usize), Refusal>
    ensures { Reads name tree.now names at result }
{
    below(tree, names, at)
}

#[tactic(auto, using(crate::proofs::Chain::then_is), unfolding(penne::specs::Read::ident, penne::specs::Reader::ret))]
pub fn read_identifier(tree: &[u8], names: u32, at: usize) -> Result<(Identifier, usize), Refusal>
    ensures { Identifies tree.now names at result }
{
    let (name, at) = name(tree, names, at)?;
    let (place, at) = number(tree, at)?;
    let (id, at) = number(tree, at)?;
    let (authority, at) = below(tree, 2, at)?;
    let identifier = Identifier {
        name,
        place,
        id,
        authority,
    };
    Ok((identifier, at))
}

// An identifier passed by.
#[tactic(auto, unfolding(crate::specs::Answers::forget))]
pub fn past_identifier(tree: &[u8], names: u32, at: usize) -> Result<usize, Refusal>
    ensures { Ends ident tree.now names at result }
{
    let (_, next) = read_identifier(tree, names, at)?;
    Ok(next)
}

// An identifier and the number behind it, which may be a place. Inlined, as `bytes_and_place`.
#[inline(always)]
#[tactic(auto, using(crate::proofs::Parts::laws), unfolding(crate::specs::Answers::forget, crate::specs::Answers::identifier_and_number, penne::specs::Reader::ret))]
pub fn identifier_and_number(tree: &[u8], names: u32, at: usize) -> Result<usize, Refusal>
    ensures { Ends identifier_and_number tree.now names at result }
{
    past_number(tree, past_identifier(tree, names, at)?)
}

// So many bytes, which are one field.
#[tactic(auto, unfolding(crate::specs::Answers::forget, penne::specs::Reader::raw, penne::specs::Reader::moved))]
pub fn raw(tree: &[u8], at: usize, count: u32) -> Result<usize, Refusal>
    ensures { Skips (raw count) tree.now at result }
{
    match at.checked_add(count as usize) {
        Some(end) if end <= tree.len() => Ok(end),
        _ => Err(Reason::CutOff.at(at)),
    }
}

// A length, then that many bytes.
#[tactic(auto, using(crate::proofs::Chain::then_is), unfolding(crate::specs::Answers::forget, penne::specs::Reader::bytes))]
pub fn bytes(tree: &[u8], at: usize) -> Result<usize, Refusal>
    ensures { Skips bytes tree.now at result }
{
    let (count, at) = number(tree, at)?;
    raw(tree, at, count)
}

// A place passed by: it stands as a number.
#[tactic(auto, using(crate::proofs::Parts::place_is))]
pub fn place(tree: &[u8], at: usize) -> Result<usize, Refusal>
    ensures { Skips place tree.now at result }
{
    past_number(tree, at)
}

// Bytes and the place behind them. Inlined: an import is little else, and a call hands its answer over in memory.
#[inline(always)]
#[tactic(auto, using(crate::proofs::Parts::laws), unfolding(crate::specs::Answers::forget, crate::specs::Answers::bytes_and_place, penne::specs::Reader::ret))]
pub fn bytes_and_place(tree: &[u8], at: usize) -> Result<usize, Refusal>
    ensures { Skips bytes_and_place tree.now at result }
{
    place(tree, bytes(tree, at)?)
}

#[tactic(auto, using(crate::proofs::Parts::laws), unfolding(crate::specs::Answers::forget, crate::specs::Answers::two_places, penne::specs::Reader::ret))]
pub fn two_places(tree: &[u8], at: usize) -> Result<usize, Refusal>
    ensures { Skips two_places tree.now at result }
{
    let at = place(tree, at)?;
    place(tree, at)
}

// An operator and two places.
#[tactic(auto, using(crate::proofs::Parts::laws), unfolding(crate::specs::Answers::forget, crate::specs::Answers::operator, penne::specs::Reader::ret))]
pub fn operator(tree: &[u8], at: usize) -> Result<usize, Refusal>
    ensures { Skips operator tree.now at result }
{
    let at = past_number(tree, at)?;
    two_places(tree, at)
}
