// Types. `own` is set in a constant's or member's own type, as far as kinds 14 to 19 reach: there kind 23 is refused. A part's answer is handed on as in `node`.
// `left` is how many levels of nesting are left.
ghost use Rattle.std.specs.Prelude.{false, get_or};
ghost use Rattle.penne.specs.Read.{read_ty, ty_of, ty_kinds, k_plain, k_array, k_named_length, maybe, option};
ghost use Rattle.fields.specs.Answers.{Ends};

use fields::field::{identifier_and_number, past_identifier};
use fields::number::{below, past_number};
use fields::poison::poison;
use fields::refusal::{Reason, Refusal};

#[cycle(value_type)]
#[tactic(auto, using(crate::proofs::Types::type_is), unfolding(fields::specs::Answers::forget))]
pub fn value_type(
    tree: &[u8],
    names: u32,
    own: bool,
    at: usize,
    left: u32,
) -> Result<usize, Refusal>
    ensures { Ends (read_ty left own) tree.now names at result }
{
    let (kind, next) = below(tree, 26, at)?;
    if left == 0 {
        return Err(Reason::TooDeep.at(at));
    }
    if own && kind == 23 {
        return Err(Reason::NamelessType.at(at));
    }
    Ok(type_of(tree, names, own, next, left - 1, kind)?)
}

// What follows a type's kind. The kinds are the form's own numbers, each beside its reader, so that all are seen at a glance.
#[cycle(value_type)]
#[tactic(auto, using(crate::proofs::Types::kinds))]
fn type_of(
    tree: &[u8],
    names: u32,
    own: bool,
    at: usize,
    left: u32,
    kind: u32,
) -> Result<usize, Refusal>
    ensures { Ends (ty_of (read_ty left own) (read_ty left false) kind (get_or ty_kinds kind k_plain)) tree.now names at result }
{
    match kind {
        0..=13 => Ok(at),
        14 => Ok(array(tree, names, own, at, left)?),
        15 => Ok(array_with_named_length(tree, names, own, at, left)?),
        16..=19 => Ok(value_type(tree, names, own, at, left)?),
        20 | 22 => Ok(past_identifier(tree, names, at)?),
        21 => identifier_and_number(tree, names, at), // a word
        24 | 25 => Ok(value_type(tree, names, false, at, left)?),
        _ => Ok(at),
    }
}

#[cycle(value_type)]
#[tactic(auto, using(fields::proofs::Parts::laws), unfolding(fields::specs::Answers::forget, penne::specs::Read::ty_of, penne::specs::Reader::ret))]
fn array(tree: &[u8], names: u32, own: bool, at: usize, left: u32) -> Result<usize, Refusal>
    ensures { Ends (ty_of (read_ty left own) (read_ty left false) 14 k_array) tree.now names at result }
{
    let at = value_type(tree, names, own, at, left)?;
    past_number(tree, at)
}

#[cycle(value_type)]
#[tactic(auto, using(fields::proofs::Parts::laws), unfolding(fields::specs::Answers::forget, penne::specs::Read::ty_of, penne::specs::Reader::ret))]
fn array_with_named_length(
    tree: &[u8],
    names: u32,
    own: bool,
    at: usize,
    left: u32,
) -> Result<usize, Refusal>
    ensures { Ends (ty_of (read_ty left own) (read_ty left false) 15 k_named_length) tree.now names at result }
{
    let at = value_type(tree, names, own, at, left)?;
    Ok(past_identifier(tree, names, at)?)
}

#[tactic(auto, using(fields::proofs::Parts::maybe_is))]
pub fn maybe_type(
    tree: &[u8],
    names: u32,
    own: bool,
    at: usize,
    left: u32,
) -> Result<usize, Refusal>
    ensures { Ends (maybe (read_ty left own)) tree.now names at result }
{
    let (tag, at) = below(tree, 2, at)?;
    if tag == 0 {
        Ok(value_type(tree, names, own, at, left)?)
    } else {
        Ok(poison(tree, names, at)?)
    }
}

// What the form calls "carried": option maybe type. Inlined: mostly it is the one byte of none.
#[inline(always)]
#[tactic(auto, using(fields::proofs::Parts::option_is))]
pub fn carried(tree: &[u8], names: u32, at: usize, left: u32) -> Result<usize, Refusal>
    ensures { Ends (option (maybe (read_ty left false))) tree.now names at result }
{
    let (tag, at) = below(tree, 2, at)?;
    if tag == 0 {
        Ok(at)
    } else {
        Ok(maybe_type(tree, names, false, at, left)?)
    }
}
