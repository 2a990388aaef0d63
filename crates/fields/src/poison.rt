// Poisons: a kind, then names, then places.
ghost use Rattle.std.specs.Prelude.{◌≡◌, ◌++◌, ◌∷◌, [], get_or};
ghost use Rattle.penne.specs.Reader.{many};
ghost use Rattle.penne.specs.Read.{name, place, ident, maybe, read_poison, poison_fields};
ghost use Rattle.fields.specs.Answers.{Ends, Skips, poison_names, poison_places};

use super::field::{name, past_identifier, place};
use super::number::below;
use super::refusal::Refusal;

// How many names and how many places the kinds 0 to 17 have, a row each. Kind 17's one number counts as a place.
const FIELDS: [(u32, u32); 18] = [
    (0, 0),
    (1, 2),
    (1, 1),
    (1, 2),
    (1, 2),
    (1, 2),
    (1, 2),
    (1, 2),
    (1, 2),
    (1, 1),
    (1, 1),
    (1, 1),
    (1, 2),
    (2, 4),
    (1, 1),
    (1, 2),
    (2, 3),
    (0, 1),
];

#[tactic(auto, unfolding(penne::specs::Read::poison_fields))]
fn fields_of(kind: u32) -> (u32, u32)
    ensures { result ≡ get_or (poison_fields ++ ((0, 1) ∷ [])) kind (0, 0) }
{
    FIELDS.get(kind as usize).copied().unwrap_or((0, 0))
}

#[tactic(auto, using(crate::proofs::Parts::names_column))]
pub fn poison_names(kind: u32) -> u32
    ensures { result ≡ get_or poison_names kind 0 }
{
    fields_of(kind).0
}

#[tactic(auto, using(crate::proofs::Parts::places_column))]
pub fn poison_places(kind: u32) -> u32
    ensures { result ≡ get_or poison_places kind 0 }
{
    fields_of(kind).1
}

#[tactic(auto, using(crate::proofs::Lists::rests, crate::proofs::Chain::number_got, crate::proofs::Chain::number_refused))]
fn name_numbers(tree: &[u8], names: u32, at: usize, count: u32) -> Result<usize, Refusal>
    ensures { Ends (many name count) tree.now names at result }
{
    let mut at = at;
    for _ in 0..count {
        (_, at) = name(tree, names, at)?;
    }
    Ok(at)
}

#[tactic(auto, using(crate::proofs::Lists::many_out, crate::proofs::Lists::many_end))]
pub fn places(tree: &[u8], at: usize, count: u32) -> Result<usize, Refusal>
    ensures { Skips (many place count) tree.now at result }
{
    let mut at = at;
    for _ in 0..count {
        at = place(tree, at)?;
    }
    Ok(at)
}

#[tactic(auto, using(crate::proofs::Chain::then_is, crate::proofs::Back::forget_got, crate::proofs::Back::forget_refused, crate::proofs::Parts::poison_is), unfolding(crate::specs::Answers::forget, penne::specs::Read::read_poison))]
pub fn poison(tree: &[u8], names: u32, at: usize) -> Result<usize, Refusal>
    ensures { Ends read_poison tree.now names at result }
{
    let (kind, at) = below(tree, 18, at)?;
    let at = name_numbers(tree, names, at, poison_names(kind))?;
    places(tree, at, poison_places(kind))
}

#[tactic(auto, using(crate::proofs::Parts::maybe_is))]
pub fn maybe_identifier(tree: &[u8], names: u32, at: usize) -> Result<usize, Refusal>
    ensures { Ends (maybe ident) tree.now names at result }
{
    let (tag, at) = below(tree, 2, at)?;
    if tag == 0 {
        past_identifier(tree, names, at)
    } else {
        poison(tree, names, at)
    }
}
