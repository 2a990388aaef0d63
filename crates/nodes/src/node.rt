// Expressions, references and steps, which hold one another. `left` is how many levels of nesting are left.
// `Ok(..?)` where a part's answer is handed on: as it is, it would be copied with the bytes that stand unused behind its reason, which took longer than the reading.
ghost use Rattle.std.specs.Prelude.{false, get_or};
ghost use Rattle.penne.specs.Tree.{expr, ref, step, signed, bits};
ghost use Rattle.penne.specs.Reader.{listed};
ghost use Rattle.penne.specs.Read.{option, read, rest_of, expr_of, expr_kinds, k_bad_expr, read_ty, item_of, step_of, read_unary, read_boolean, read_integer, read_array_literal, read_structural, read_parenthesized, read_deref, read_bit_cast, read_type_cast, read_length_of_array, read_size_of, read_function_call};
ghost use Rattle.fields.specs.Answers.{Ends, Skips, bytes_and_place};
ghost use Rattle.nodes.specs.Parts.{operation};

use super::value_type::{carried, maybe_type, value_type};
use fields::field::{
    bytes_and_place, identifier_and_number, operator, past_identifier, place, raw, two_places,
};
use fields::number::{below, number, past_number};
use fields::poison::{maybe_identifier, poison};
use fields::refusal::{Reason, Refusal};

#[cycle(node)]
#[tactic(auto, using(crate::proofs::Nodes::expression_is), unfolding(fields::specs::Answers::forget))]
pub fn expression(tree: &[u8], names: u32, at: usize, left: u32) -> Result<usize, Refusal>
    ensures { Ends (read left expr) tree.now names at result }
{
    let (kind, next) = below(tree, 16, at)?;
    if left == 0 {
        return Err(Reason::TooDeep.at(at));
    }
    Ok(expression_of(tree, names, next, left - 1, kind)?)
}

// What follows an expression's kind. The kinds are the form's own numbers, each beside its reader, so that all are seen at a glance.
#[cycle(node)]
#[tactic(auto, using(crate::proofs::Nodes::kinds))]
fn expression_of(tree: &[u8], names: u32, at: usize, left: u32, kind: u32) -> Result<usize, Refusal>
    ensures { Ends (expr_of (read left) (read_ty left false) (get_or expr_kinds kind k_bad_expr)) tree.now names at result }
{
    match kind {
        0 => operation(tree, names, at, left),
        1 => unary(tree, names, at, left),
        2 => boolean(tree, at),
        3 | 4 => integer(tree, names, at, left),
        5 => string(tree, at),
        6 => array_literal(tree, names, at, left),
        7 => structural(tree, names, at, left),
        8 => parenthesized(tree, names, at, left),
        9 => deref(tree, names, at, left),
        10 => bit_cast(tree, names, at, left),
        11 => type_cast(tree, names, at, left),
        12 => length_of_array(tree, names, at, left),
        13 => size_of(tree, names, at, left),
        14 => function_call(tree, names, at, left),
        _ => poison(tree, names, at),
    }
}

// What follows the kind of a Binary; the condition of an If is read alike.
#[cycle(node)]
#[tactic(auto, using(fields::proofs::Parts::laws), unfolding(fields::specs::Answers::forget, crate::specs::Parts::operation, penne::specs::Reader::ret))]
pub fn operation(tree: &[u8], names: u32, at: usize, left: u32) -> Result<usize, Refusal>
    ensures { Ends (operation (read left)) tree.now names at result }
{
    let first = operator(tree, at)?;
    let second = expression(tree, names, first, left)?;
    Ok(expression(tree, names, second, left)?)
}

#[cycle(node)]
#[tactic(auto, using(fields::proofs::Parts::laws, crate::proofs::Nodes::unary_is), unfolding(fields::specs::Answers::forget, penne::specs::Reader::ret))]
fn unary(tree: &[u8], names: u32, at: usize, left: u32) -> Result<usize, Refusal>
    ensures { Ends (read_unary (read left)) tree.now names at result }
{
    let at = operator(tree, at)?;
    Ok(expression(tree, names, at, left)?)
}

#[tactic(auto, using(fields::proofs::Parts::laws), unfolding(fields::specs::Answers::forget, penne::specs::Read::read_boolean, penne::specs::Reader::ret))]
fn boolean(tree: &[u8], at: usize) -> Result<usize, Refusal>
    ensures { Skips read_boolean tree.now at result }
{
    let (_, at) = below(tree, 2, at)?;
    place(tree, at)
}

// A signed or a bit integer: both are read alike.
#[tactic(auto, using(fields::proofs::Parts::laws), unfolding(fields::specs::Answers::forget, penne::specs::Read::read_integer, penne::specs::Reader::ret))]
fn integer(tree: &[u8], names: u32, at: usize, left: u32) -> Result<usize, Refusal>
    ensures { (Ends (read_integer signed (read_ty left false)) tree.now names at result) × (Ends (read_integer bits (read_ty left false)) tree.now names at result) }
{
    let at = raw(tree, at, 16)?;
    let at = place(tree, at)?;
    Ok(carried(tree, names, at, left)?)
}

// A string, apart: what is inlined is not to weigh on every expression.
fn string(tree: &[u8], at: usize) -> Result<usize, Refusal>
    ensures { Skips bytes_and_place tree.now at result }
{
    bytes_and_place(tree, at)
}

#[cycle(node)]
#[tactic(auto, using(fields::proofs::Parts::laws), unfolding(fields::specs::Answers::forget, penne::specs::Read::read_array_literal, penne::specs::Reader::ret))]
fn array_literal(tree: &[u8], names: u32, at: usize, left: u32) -> Result<usize, Refusal>
    ensures { Ends (read_array_literal (read left) (read_ty left false)) tree.now names at result }
{
    let at = place(tree, at)?;
    let at = carried(tree, names, at, left)?;
    let at = expressions(tree, names, at, left)?;
    past_number(tree, at)
}

#[cycle(node)]
#[tactic(auto, using(fields::proofs::Parts::laws), unfolding(fields::specs::Answers::forget, penne::specs::Read::read_structural, penne::specs::Reader::ret))]
fn structural(tree: &[u8], names: u32, at: usize, left: u32) -> Result<usize, Refusal>
    ensures { Ends (read_structural (read left) (read_ty left false)) tree.now names at result }
{
    let at = place(tree, at)?;
    let at = items(tree, names, at, left)?;
    Ok(maybe_type(tree, names, false, at, left)?)
}

#[cycle(node)]
#[tactic(auto, using(fields::proofs::Parts::laws), unfolding(fields::specs::Answers::forget, penne::specs::Read::read_parenthesized, penne::specs::Reader::ret))]
fn parenthesized(tree: &[u8], names: u32, at: usize, left: u32) -> Result<usize, Refusal>
    ensures { Ends (read_parenthesized (read left)) tree.now names at result }
{
    let at = place(tree, at)?;
    Ok(expression(tree, names, at, left)?)
}

#[cycle(node)]
#[tactic(auto, using(fields::proofs::Parts::laws), unfolding(fields::specs::Answers::forget, penne::specs::Read::read_deref, penne::specs::Reader::ret))]
fn deref(tree: &[u8], names: u32, at: usize, left: u32) -> Result<usize, Refusal>
    ensures { Ends (read_deref (read left) (read_ty left false)) tree.now names at result }
{
    let at = carried(tree, names, at, left)?;
    Ok(reference(tree, names, at, left)?)
}

#[cycle(node)]
#[tactic(auto, using(fields::proofs::Parts::laws, crate::proofs::Nodes::bit_cast_is), unfolding(fields::specs::Answers::forget, penne::specs::Reader::ret))]
fn bit_cast(tree: &[u8], names: u32, at: usize, left: u32) -> Result<usize, Refusal>
    ensures { Ends (read_bit_cast (read left) (read_ty left false)) tree.now names at result }
{
    let at = two_places(tree, at)?;
    let at = carried(tree, names, at, left)?;
    Ok(expression(tree, names, at, left)?)
}

#[cycle(node)]
#[tactic(auto, using(fields::proofs::Parts::laws, crate::proofs::Nodes::type_cast_is), unfolding(fields::specs::Answers::forget, penne::specs::Reader::ret))]
fn type_cast(tree: &[u8], names: u32, at: usize, left: u32) -> Result<usize, Refusal>
    ensures { Ends (read_type_cast (read left) (read_ty left false)) tree.now names at result }
{
    let at = two_places(tree, at)?;
    let at = value_type(tree, names, false, at, left)?;
    Ok(expression(tree, names, at, left)?)
}

#[cycle(node)]
#[tactic(auto, using(fields::proofs::Parts::laws), unfolding(fields::specs::Answers::forget, penne::specs::Read::read_length_of_array, penne::specs::Reader::ret))]
fn length_of_array(tree: &[u8], names: u32, at: usize, left: u32) -> Result<usize, Refusal>
    ensures { Ends (read_length_of_array (read left)) tree.now names at result }
{
    let at = place(tree, at)?;
    Ok(reference(tree, names, at, left)?)
}

#[tactic(auto, using(fields::proofs::Parts::laws), unfolding(fields::specs::Answers::forget, penne::specs::Read::read_size_of, penne::specs::Reader::ret))]
fn size_of(tree: &[u8], names: u32, at: usize, left: u32) -> Result<usize, Refusal>
    ensures { Ends (read_size_of (read_ty left false)) tree.now names at result }
{
    let at = place(tree, at)?;
    Ok(value_type(tree, names, false, at, left)?)
}

#[cycle(node)]
#[tactic(auto, using(fields::proofs::Parts::laws), unfolding(fields::specs::Answers::forget, penne::specs::Read::read_function_call, penne::specs::Reader::ret))]
fn function_call(tree: &[u8], names: u32, at: usize, left: u32) -> Result<usize, Refusal>
    ensures { Ends (read_function_call (read left) (read_ty left false)) tree.now names at result }
{
    let at = past_identifier(tree, names, at)?;
    let at = past_number(tree, at)?;
    let at = carried(tree, names, at, left)?;
    expressions(tree, names, at, left)
}

// A list of expressions. Inlined: most are short, and a call hands its answer over in memory.
#[inline(always)]
#[cycle(node)]
#[tactic(auto, using(fields::proofs::Lists::rests))]
pub fn expressions(tree: &[u8], names: u32, at: usize, left: u32) -> Result<usize, Refusal>
    ensures { Ends (listed (read left expr)) tree.now names at result }
{
    let (count, mut at) = number(tree, at)?;
    for _ in 0..count {
        at = expression(tree, names, at, left)?;
    }
    Ok(at)
}

// The list of a structural literal's members.
#[cycle(node)]
#[tactic(auto, using(fields::proofs::Lists::rests))]
fn items(tree: &[u8], names: u32, at: usize, left: u32) -> Result<usize, Refusal>
    ensures { Ends (listed (item_of (read left))) tree.now names at result }
{
    let (count, mut at) = number(tree, at)?;
    for _ in 0..count {
        at = item(tree, names, at, left)?;
    }
    Ok(at)
}

#[cycle(node)]
#[tactic(auto, using(fields::proofs::Parts::laws), unfolding(fields::specs::Answers::forget, penne::specs::Read::item_of, penne::specs::Reader::ret))]
fn item(tree: &[u8], names: u32, at: usize, left: u32) -> Result<usize, Refusal>
    ensures { Ends (item_of (read left)) tree.now names at result }
{
    let at = maybe_identifier(tree, names, at)?;
    let at = past_number(tree, at)?;
    Ok(expression(tree, names, at, left)?)
}

#[cycle(node)]
#[tactic(auto, using(fields::proofs::Parts::laws, crate::proofs::Nodes::reference_is, crate::proofs::Nodes::rest_is), unfolding(fields::specs::Answers::forget, penne::specs::Reader::ret))]
pub fn reference(tree: &[u8], names: u32, at: usize, left: u32) -> Result<usize, Refusal>
    ensures { Ends (read left ref) tree.now names at result }
{
    let (_, next) = below(tree, 256, at)?;
    if left == 0 {
        return Err(Reason::TooDeep.at(at));
    }
    let at = two_places(tree, next)?;
    let at = maybe_identifier(tree, names, at)?;
    Ok(steps(tree, names, at, left - 1)?)
}

#[cycle(node)]
#[tactic(auto, using(fields::proofs::Lists::rests))]
fn steps(tree: &[u8], names: u32, at: usize, left: u32) -> Result<usize, Refusal>
    ensures { Ends (listed (read left step)) tree.now names at result }
{
    let (count, mut at) = number(tree, at)?;
    for _ in 0..count {
        at = step(tree, names, at, left)?;
    }
    Ok(at)
}

// An element, or a member, which is an identifier and a number.
#[cycle(node)]
#[tactic(auto, using(crate::proofs::Nodes::step_is, crate::proofs::Nodes::element_is, crate::proofs::Nodes::member_is), unfolding(fields::specs::Answers::forget))]
fn step(tree: &[u8], names: u32, at: usize, left: u32) -> Result<usize, Refusal>
    ensures { Ends (read left step) tree.now names at result }
{
    let (kind, next) = below(tree, 2, at)?;
    if left == 0 {
        return Err(Reason::TooDeep.at(at));
    }
    if kind == 0 {
        Ok(element(tree, names, next, left - 1)?)
    } else {
        Ok(identifier_and_number(tree, names, next)?)
    }
}

#[cycle(node)]
#[tactic(auto, using(fields::proofs::Parts::laws), unfolding(fields::specs::Answers::forget, penne::specs::Read::step_of, penne::specs::Reader::ret))]
fn element(tree: &[u8], names: u32, at: usize, left: u32) -> Result<usize, Refusal>
    ensures { Ends (step_of (read left) 0) tree.now names at result }
{
    let (_, at) = below(tree, 3, at)?;
    Ok(expression(tree, names, at, left)?)
}

#[tactic(auto, using(fields::proofs::Parts::option_is))]
pub fn option_expression(tree: &[u8], names: u32, at: usize, left: u32) -> Result<usize, Refusal>
    ensures { Ends (option (read left expr)) tree.now names at result }
{
    let (tag, at) = below(tree, 2, at)?;
    if tag == 0 {
        Ok(at)
    } else {
        Ok(expression(tree, names, at, left)?)
    }
}
