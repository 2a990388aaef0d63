// Declarations. They stand at nesting 1, so that 63 levels are left below them.
ghost use Rattle.std.specs.Prelude.{get_or};
ghost use Rattle.penne.specs.Reader.{listed};
ghost use Rattle.penne.specs.Read.{read_decl, decl_of, decl_kinds, k_bad_decl, read_constant, read_function, read_function_head, read_structure, read_param};
ghost use Rattle.fields.specs.Answers.{Ends, Passes};
ghost use Rattle.tree.specs.Parts.{headed};

use super::statement::maybe_body;
use fields::counts::{Counts, count, declaration_counts, entry};
use fields::field::{bytes_and_place, past_identifier, place, two_places};
use fields::number::{below, number};
use fields::poison::{maybe_identifier, poison};
use fields::refusal::{Reason, Refusal};
use nodes::node::expression;
use nodes::value_type::maybe_type;

#[tactic(auto, using(crate::proofs::Declarations::decl_is))]
pub fn declaration(
    tree: &[u8],
    names: u32,
    counts: Counts,
    at: usize,
) -> Result<(usize, Counts), Refusal>
    ensures { Passes read_decl tree.now names counts at result }
{
    let (kind, next) = below(tree, 6, at)?;
    let counts = count(counts, declaration_counts(kind)).ok_or(Reason::TooMany.at(at))?;
    declaration_of(tree, names, counts, next, kind)
}

// What follows a declaration's kind. The kinds are the form's own numbers, each beside its reader, so that all are seen at a glance.
#[tactic(auto, using(crate::proofs::Declarations::kinds))]
fn declaration_of(
    tree: &[u8],
    names: u32,
    counts: Counts,
    at: usize,
    kind: u32,
) -> Result<(usize, Counts), Refusal>
    ensures { Passes (decl_of 63 (get_or decl_kinds kind k_bad_decl)) tree.now names counts at result }
{
    let at = match kind {
        0 => constant(tree, names, at)?,
        1 => return function(tree, names, counts, at),
        2 => return function_head(tree, names, counts, at),
        3 => return structure(tree, names, counts, at),
        4 => bytes_and_place(tree, at)?, // an import
        _ => poison(tree, names, at)?,
    };
    Ok((at, counts))
}

// What begins a constant, a function and a head.
#[tactic(auto, using(fields::proofs::Parts::laws), unfolding(fields::specs::Answers::forget, crate::specs::Parts::headed, penne::specs::Reader::ret))]
fn head(tree: &[u8], names: u32, at: usize) -> Result<usize, Refusal>
    ensures { Ends headed tree.now names at result }
{
    let (_, at) = below(tree, 32, at)?;
    let at = two_places(tree, at)?;
    past_identifier(tree, names, at)
}

#[tactic(auto, using(fields::proofs::Parts::laws, crate::proofs::Declarations::constant_is), unfolding(fields::specs::Answers::forget, penne::specs::Reader::ret))]
fn constant(tree: &[u8], names: u32, at: usize) -> Result<usize, Refusal>
    ensures { Ends (read_constant 63) tree.now names at result }
{
    let at = head(tree, names, at)?;
    let at = expression(tree, names, at, 63)?;
    maybe_type(tree, names, true, at, 63)
}

#[tactic(auto, using(fields::proofs::Parts::laws, crate::proofs::Declarations::function_is), unfolding(fields::specs::Answers::forget, penne::specs::Reader::ret))]
fn function(tree: &[u8], names: u32, counts: Counts, at: usize) -> Result<(usize, Counts), Refusal>
    ensures { Passes (read_function 63) tree.now names counts at result }
{
    let at = head(tree, names, at)?;
    let (at, counts) = parameters(tree, names, counts, false, at)?;
    let (at, counts) = maybe_body(tree, names, counts, at, 63)?;
    let at = maybe_type(tree, names, false, at, 63)?;
    Ok((at, counts))
}

// Beside `function`: a body is read in the middle there.
#[tactic(auto, using(fields::proofs::Parts::laws, crate::proofs::Declarations::function_head_is), unfolding(fields::specs::Answers::forget, penne::specs::Reader::ret))]
fn function_head(
    tree: &[u8],
    names: u32,
    counts: Counts,
    at: usize,
) -> Result<(usize, Counts), Refusal>
    ensures { Passes (read_function_head 63) tree.now names counts at result }
{
    let at = head(tree, names, at)?;
    let (at, counts) = parameters(tree, names, counts, false, at)?;
    let at = maybe_type(tree, names, false, at, 63)?;
    Ok((at, counts))
}

#[tactic(auto, using(fields::proofs::Parts::laws), unfolding(fields::specs::Answers::forget, penne::specs::Read::read_structure, penne::specs::Reader::ret))]
fn structure(tree: &[u8], names: u32, counts: Counts, at: usize) -> Result<(usize, Counts), Refusal>
    ensures { Passes (read_structure 63) tree.now names counts at result }
{
    let (_, at) = below(tree, 32, at)?;
    let at = place(tree, at)?;
    let at = past_identifier(tree, names, at)?;
    let (at, counts) = parameters(tree, names, counts, true, at)?;
    let at = maybe_type(tree, names, false, at, 63)?;
    Ok((at, counts))
}

// A list of parameters, or of members: then `own` is set, and kind 23 is refused in their types.
#[tactic(auto, using(fields::proofs::Lists::listings))]
pub fn parameters(
    tree: &[u8],
    names: u32,
    counts: Counts,
    own: bool,
    at: usize,
) -> Result<(usize, Counts), Refusal>
    ensures { Passes (listed (read_param 63 own)) tree.now names counts at result }
{
    let (count, mut at) = number(tree, at)?;
    let mut counts = counts;
    for _ in 0..count {
        (at, counts) = parameter(tree, names, counts, own, at)?;
    }
    Ok((at, counts))
}

#[tactic(auto, using(fields::proofs::Parts::laws, fields::proofs::Counting::counting_is), unfolding(fields::specs::Answers::forget, fields::specs::Answers::together, penne::specs::Read::read_param, penne::specs::Read::place, penne::specs::Reader::counted, penne::specs::Reader::ret))]
fn parameter(
    tree: &[u8],
    names: u32,
    counts: Counts,
    own: bool,
    at: usize,
) -> Result<(usize, Counts), Refusal>
    ensures { Passes (read_param 63 own) tree.now names counts at result }
{
    let next = place(tree, at)?;
    let counts = count(counts, entry()).ok_or(Reason::TooMany.at(at))?;
    let at = maybe_identifier(tree, names, next)?;
    let at = maybe_type(tree, names, own, at, 63)?;
    Ok((at, counts))
}
