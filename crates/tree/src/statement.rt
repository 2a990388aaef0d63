// Statements and bodies. `left` is how many levels of nesting are left.
ghost use Rattle.std.specs.Prelude.{get_or};
ghost use Rattle.penne.specs.Reader.{listed};
ghost use Rattle.penne.specs.Read.{maybe, read_stmt, stmt_of, stmt_kinds, k_bad_stmt, read_declaration, read_assignment, read_method_call, read_if, read_block, else_of, read_body};
ghost use Rattle.fields.specs.Answers.{Ends, Passes};

use fields::counts::{Counts, count, statement_counts};
use fields::field::{identifier_and_number, past_identifier, place};
use fields::number::{below, number, past_number};
use fields::poison::poison;
use fields::refusal::{Reason, Refusal};
use nodes::node::{expression, expressions, operation, option_expression, reference};
use nodes::value_type::carried;

#[cycle(statement)]
#[tactic(auto, using(crate::proofs::Statements::stmt_is))]
pub fn stmt(
    tree: &[u8],
    names: u32,
    counts: Counts,
    at: usize,
    left: u32,
) -> Result<(usize, Counts), Refusal>
    ensures { Passes (read_stmt left) tree.now names counts at result }
{
    let (kind, next) = below(tree, 9, at)?;
    if left == 0 {
        return Err(Reason::TooDeep.at(at));
    }
    let counts = count(counts, statement_counts(kind)).ok_or(Reason::TooMany.at(at))?;
    statement_of(tree, names, counts, next, left - 1, kind)
}

// What follows a statement's kind. The kinds are the form's own numbers, each beside its reader, so that all are seen at a glance.
#[cycle(statement)]
#[tactic(auto, using(crate::proofs::Statements::kinds), unfolding(penne::specs::Reader::ret, fields::specs::Answers::forget))]
fn statement_of(
    tree: &[u8],
    names: u32,
    counts: Counts,
    at: usize,
    left: u32,
    kind: u32,
) -> Result<(usize, Counts), Refusal>
    ensures { Passes (stmt_of left (read_stmt left) (get_or stmt_kinds kind k_bad_stmt)) tree.now names counts at result }
{
    let at = match kind {
        0 => declaration(tree, names, at, left)?,
        1 => assignment(tree, names, at, left)?,
        2 => method_call(tree, names, at, left)?,
        3 => place(tree, at)?, // a loop
        4 | 5 => identifier_and_number(tree, names, at)?, // a goto or a label
        6 => return branches(tree, names, counts, at, left),
        7 => return block(tree, names, counts, at, left),
        _ => poison(tree, names, at)?,
    };
    Ok((at, counts))
}

#[tactic(auto, using(fields::proofs::Parts::laws), unfolding(fields::specs::Answers::forget, penne::specs::Read::read_declaration, penne::specs::Reader::ret))]
fn declaration(tree: &[u8], names: u32, at: usize, left: u32) -> Result<usize, Refusal>
    ensures { Ends (read_declaration left) tree.now names at result }
{
    let at = place(tree, at)?;
    let at = option_expression(tree, names, at, left)?;
    let at = carried(tree, names, at, left)?;
    past_identifier(tree, names, at)
}

#[tactic(auto, using(fields::proofs::Parts::laws), unfolding(fields::specs::Answers::forget, penne::specs::Read::read_assignment, penne::specs::Reader::ret))]
fn assignment(tree: &[u8], names: u32, at: usize, left: u32) -> Result<usize, Refusal>
    ensures { Ends (read_assignment left) tree.now names at result }
{
    let at = place(tree, at)?;
    let at = expression(tree, names, at, left)?;
    reference(tree, names, at, left)
}

#[tactic(auto, using(fields::proofs::Parts::laws), unfolding(fields::specs::Answers::forget, penne::specs::Read::read_method_call, penne::specs::Reader::ret))]
fn method_call(tree: &[u8], names: u32, at: usize, left: u32) -> Result<usize, Refusal>
    ensures { Ends (read_method_call left) tree.now names at result }
{
    let at = past_identifier(tree, names, at)?;
    let at = past_number(tree, at)?;
    expressions(tree, names, at, left)
}

// An If.
#[cycle(statement)]
#[tactic(auto, using(fields::proofs::Parts::laws, crate::proofs::Statements::if_is), unfolding(fields::specs::Answers::forget, penne::specs::Reader::ret))]
fn branches(
    tree: &[u8],
    names: u32,
    counts: Counts,
    at: usize,
    left: u32,
) -> Result<(usize, Counts), Refusal>
    ensures { Passes (read_if left (read_stmt left)) tree.now names counts at result }
{
    let at = place(tree, at)?;
    let at = operation(tree, names, at, left)?;
    let (at, counts) = stmt(tree, names, counts, at, left)?;
    else_branch(tree, names, counts, at, left)
}

#[cycle(statement)]
#[tactic(auto, using(fields::proofs::Parts::laws, crate::proofs::Statements::else_is), unfolding(fields::specs::Answers::forget, penne::specs::Reader::ret))]
fn else_branch(
    tree: &[u8],
    names: u32,
    counts: Counts,
    at: usize,
    left: u32,
) -> Result<(usize, Counts), Refusal>
    ensures { Passes (else_of (read_stmt left)) tree.now names counts at result }
{
    let (tag, at) = below(tree, 2, at)?;
    if tag == 0 {
        return Ok((at, counts));
    }
    let at = place(tree, at)?;
    stmt(tree, names, counts, at, left)
}

#[cycle(statement)]
#[tactic(auto, using(fields::proofs::Parts::laws), unfolding(fields::specs::Answers::forget, penne::specs::Read::read_block, penne::specs::Reader::ret))]
fn block(
    tree: &[u8],
    names: u32,
    counts: Counts,
    at: usize,
    left: u32,
) -> Result<(usize, Counts), Refusal>
    ensures { Passes (read_block (read_stmt left)) tree.now names counts at result }
{
    let at = place(tree, at)?;
    statements(tree, names, counts, at, left)
}

// A list of statements.
#[cycle(statement)]
#[tactic(auto, using(fields::proofs::Lists::listings))]
pub fn statements(
    tree: &[u8],
    names: u32,
    counts: Counts,
    at: usize,
    left: u32,
) -> Result<(usize, Counts), Refusal>
    ensures { Passes (listed (read_stmt left)) tree.now names counts at result }
{
    let (count, mut at) = number(tree, at)?;
    let mut counts = counts;
    for _ in 0..count {
        (at, counts) = stmt(tree, names, counts, at, left)?;
    }
    Ok((at, counts))
}

#[tactic(auto, using(fields::proofs::Parts::laws), unfolding(fields::specs::Answers::forget, penne::specs::Read::read_body, penne::specs::Reader::ret))]
pub fn body(
    tree: &[u8],
    names: u32,
    counts: Counts,
    at: usize,
    left: u32,
) -> Result<(usize, Counts), Refusal>
    ensures { Passes (read_body left) tree.now names counts at result }
{
    let (at, counts) = statements(tree, names, counts, at, left)?;
    let at = option_expression(tree, names, at, left)?;
    let at = past_identifier(tree, names, at)?;
    Ok((at, counts))
}

#[tactic(auto, using(fields::proofs::Parts::maybe_is))]
pub fn maybe_body(
    tree: &[u8],
    names: u32,
    counts: Counts,
    at: usize,
    left: u32,
) -> Result<(usize, Counts), Refusal>
    ensures { Passes (maybe (read_body left)) tree.now names counts at result }
{
    let (tag, at) = below(tree, 2, at)?;
    if tag == 0 {
        body(tree, names, counts, at, left)
    } else {
        Ok((poison(tree, names, at)?, counts))
    }
}
