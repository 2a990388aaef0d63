// A function's statements laid out in the work words, a row of four words for each, by its number in reading order:
// its kind (4 goto, 5 label, 6 If, 7 block, 0 all else); 1 + the number of the one before it in its list;
// what is inside it (a goto's or a label's name; 1 + the number of an If's else branch, or of a block's last statement; 0 where there is none);
// and the word for its outcome, where a label's place stands until it is visited. An If's then branch is the statement after it.
ghost use Rattle.std.specs.Prelude.{ℕ};
ghost use Rattle.penne.specs.Tree.{goto, label};
ghost use Rattle.penne.specs.Reader.{listed};
ghost use Rattle.penne.specs.Read.{read_stmt, read_jump, read_if, read_block, else_of, read_decl, read_function};
ghost use Rattle.fields.specs.Answers.{cursor, counts_of};
ghost use Rattle.label_references.specs.Pass.{Starts, LaysBody};
ghost use Rattle.label_references.specs.Lay.{SetsRow, Lays, LaysKind, LaysLeaf, LaysElse, LaysList, EndsAt};

use fields::counts::{Counts, count, declaration_counts, statement_counts};
use fields::field::{operator, past_identifier, read_identifier, two_places};
use fields::number::{below, number};
use fields::refusal::{Reason, Refusal};
use memory::layout::{OUTCOMES, SHAPE_INSIDE, SHAPE_KIND, SHAPE_PREVIOUS, SHAPES};
use memory::words::{next, set_word};
use nodes::node::expression;
use tree::declaration::parameters;
use tree::statement::stmt;

// How far the statements are laid out: the next byte, what is counted by then, and 1 + the number of the last statement laid out beside the ones before it.
#[derive(Clone, Copy)]
pub struct Shaped {
    pub at: usize,
    pub counts: Counts,
    pub last: u32,
}

// The statements of a declaration's body: 1 + the number of the last one, and nothing where there is no body or something can't be read; `counts` is counted before the declaration.
#[tactic(auto, using(crate::proofs::Deciding::function_body_laws))]
pub fn function_body(
    tree: &[u8],
    work: &mut [u32],
    names: u32,
    at: usize,
    counts: Counts,
) -> Option<u32>
    ensures { LaysBody (read_decl tree.now (cursor at names (counts_of counts))) counts.statements work.old result work.new }
{
    let Ok(Some((first, inside))) = body_start(tree, names, at, counts) else {
        return None;
    };
    let Ok(list) = lay_list(tree, work, names, first, inside, 63) else {
        return None;
    };
    Some(list.last)
}

// Where the statements of a function begin whose body is no poison, and what is counted by then.
#[tactic(auto, using(crate::proofs::Starting::body_start_laws), unfolding(penne::specs::Read::decl_of, penne::specs::Read::decl_kinds))]
fn body_start(
    tree: &[u8],
    names: u32,
    at: usize,
    counts: Counts,
) -> Result<Option<(usize, Counts)>, Refusal>
    ensures { Starts (read_decl tree.now (cursor at names (counts_of counts))) tree.now names counts.statements result }
{
    let (kind, behind) = below(tree, 6, at)?;
    let here = count(counts, declaration_counts(kind)).ok_or(Reason::TooMany.at(at))?;
    if kind == 1 {
        inside_function(tree, names, behind, here)
    } else {
        Ok(None)
    }
}

#[tactic(auto, using(crate::proofs::Starting::inside_function_laws))]
fn inside_function(
    tree: &[u8],
    names: u32,
    at: usize,
    counts: Counts,
) -> Result<Option<(usize, Counts)>, Refusal>
    ensures { Starts (read_function 63 tree.now (cursor at names (counts_of counts))) tree.now names counts.statements result }
{
    let (_, at) = below(tree, 32, at)?;
    let at = two_places(tree, at)?;
    let at = past_identifier(tree, names, at)?;
    let (at, counts) = parameters(tree, names, counts, false, at)?;
    let (tag, at) = below(tree, 2, at)?;
    if tag == 0 {
        Ok(Some((at, counts)))
    } else {
        Ok(None)
    }
}

// A list of statements.
#[cycle(shape)]
#[tactic(auto, using(crate::proofs::Laying::list_unread))]
pub fn lay_list(
    tree: &[u8],
    work: &mut [u32],
    names: u32,
    at: usize,
    counts: Counts,
    left: u32,
) -> Result<Shaped, Refusal>
    ensures { LaysList (listed (read_stmt left) tree.now (cursor at names (counts_of counts))) names left counts.statements work.old result work.new }
{
    let (count, first) = number(tree, at)?;
    let mut so_far = Shaped {
        at: first,
        counts,
        last: 0,
    };
    for _ in 0..count {
        so_far = lay(
            tree,
            work,
            names,
            so_far.at,
            so_far.counts,
            so_far.last,
            left,
        )?;
    }
    Ok(so_far)
}

// The statement at `at`, behind the one of number `previous` less 1; its own number is how many statements are counted before it.
#[cycle(shape)]
#[tactic(auto, using(crate::proofs::Laying::lay_laws))]
fn lay(
    tree: &[u8],
    work: &mut [u32],
    names: u32,
    at: usize,
    counts: Counts,
    previous: u32,
    left: u32,
) -> Result<Shaped, Refusal>
    ensures { Lays (read_stmt left tree.now (cursor at names (counts_of counts))) names left counts.statements previous work.old result work.new }
{
    let (kind, inside) = below(tree, 9, at)?;
    if left == 0 {
        return Err(Reason::TooDeep.at(at));
    }
    let here = count(counts, statement_counts(kind)).ok_or(Reason::TooMany.at(at))?;
    let k = counts.statements;
    // The form's own numbers: a goto, a label, an If, a block, and all that holds no statement.
    match kind {
        4 => lay_goto(tree, work, names, inside, here, k, previous),
        5 => lay_label(tree, work, names, inside, here, k, previous),
        6 => lay_branches(tree, work, names, inside, here, k, previous, left - 1),
        7 => lay_block(tree, work, names, inside, here, k, previous, left - 1),
        _ => lay_leaf(tree, work, names, at, counts, previous, left),
    }
}

// A statement that holds no other, and is no goto and no label.
#[tactic(auto, using(crate::proofs::Laying::leaf_unread, crate::proofs::Laying::leaf_in))]
fn lay_leaf(
    tree: &[u8],
    work: &mut [u32],
    names: u32,
    at: usize,
    counts: Counts,
    previous: u32,
    left: u32,
) -> Result<Shaped, Refusal>
    ensures { LaysLeaf (read_stmt left tree.now (cursor at names (counts_of counts))) names left counts.statements previous work.old result work.new }
{
    let (behind, after) = stmt(tree, names, counts, at, left)?;
    let k = counts.statements;
    set_row(work, k, 0, previous, 0, 0);
    Ok(laid(behind, after, k))
}

// A goto, with its name.
#[tactic(auto, using(crate::proofs::Laying::lay_goto_laws))]
fn lay_goto(
    tree: &[u8],
    work: &mut [u32],
    names: u32,
    at: usize,
    counts: Counts,
    k: u32,
    previous: u32,
) -> Result<Shaped, Refusal>
    ensures { (left : ℕ) → LaysKind (read_jump goto tree.now (cursor at names (counts_of counts))) names left counts k previous work.old result work.new }
{
    let (identifier, at) = read_identifier(tree, names, at)?;
    let (_, at) = number(tree, at)?;
    set_row(work, k, 4, previous, identifier.name, 0);
    Ok(laid(at, counts, k))
}

// A label, with its name and its place.
#[tactic(auto, using(crate::proofs::Laying::lay_label_laws))]
fn lay_label(
    tree: &[u8],
    work: &mut [u32],
    names: u32,
    at: usize,
    counts: Counts,
    k: u32,
    previous: u32,
) -> Result<Shaped, Refusal>
    ensures { (left : ℕ) → LaysKind (read_jump label tree.now (cursor at names (counts_of counts))) names left counts k previous work.old result work.new }
{
    let (identifier, at) = read_identifier(tree, names, at)?;
    let (_, at) = number(tree, at)?;
    set_row(work, k, 5, previous, identifier.name, identifier.place);
    Ok(laid(at, counts, k))
}

#[tactic(auto, using(crate::proofs::Laying::ends_in))]
fn laid(at: usize, counts: Counts, k: u32) -> Shaped
    ensures { EndsAt at counts k result }
{
    Shaped {
        at,
        counts,
        last: next(k),
    }
}

#[cycle(shape)]
#[tactic(auto, using(crate::proofs::Laying::lay_branches_laws))]
fn lay_branches(
    tree: &[u8],
    work: &mut [u32],
    names: u32,
    at: usize,
    counts: Counts,
    k: u32,
    previous: u32,
    left: u32,
) -> Result<Shaped, Refusal>
    ensures { LaysKind (read_if left (read_stmt left) tree.now (cursor at names (counts_of counts))) names left counts k previous work.old result work.new }
{
    let (_, at) = number(tree, at)?;
    let at = operator(tree, at)?;
    let at = expression(tree, names, at, left)?;
    let at = expression(tree, names, at, left)?;
    let then = lay(tree, work, names, at, counts, 0, left)?;
    lay_else(tree, work, names, then.at, then.counts, k, previous, left)
}

// What follows the then branch of the If of number k.
#[cycle(shape)]
#[tactic(auto, using(crate::proofs::Laying::lay_else_laws))]
fn lay_else(
    tree: &[u8],
    work: &mut [u32],
    names: u32,
    at: usize,
    counts: Counts,
    k: u32,
    previous: u32,
    left: u32,
) -> Result<Shaped, Refusal>
    ensures { LaysElse (else_of (read_stmt left) tree.now (cursor at names (counts_of counts))) names left counts k previous work.old result work.new }
{
    let (tag, at) = below(tree, 2, at)?;
    if tag == 0 {
        set_row(work, k, 6, previous, 0, 0);
        return Ok(laid(at, counts, k));
    }
    let (_, at) = number(tree, at)?;
    let other = lay(tree, work, names, at, counts, 0, left)?;
    set_row(work, k, 6, previous, other.last, 0);
    Ok(laid(other.at, other.counts, k))
}

#[cycle(shape)]
#[tactic(auto, using(crate::proofs::Laying::lay_block_laws))]
fn lay_block(
    tree: &[u8],
    work: &mut [u32],
    names: u32,
    at: usize,
    counts: Counts,
    k: u32,
    previous: u32,
    left: u32,
) -> Result<Shaped, Refusal>
    ensures { LaysKind (read_block (read_stmt left) tree.now (cursor at names (counts_of counts))) names left counts k previous work.old result work.new }
{
    let (_, at) = number(tree, at)?;
    let list = lay_list(tree, work, names, at, counts, left)?;
    set_row(work, k, 7, previous, list.last, 0);
    Ok(laid(list.at, list.counts, k))
}

#[tactic(auto, using(crate::proofs::Laying::row_past, crate::proofs::Laying::row_in))]
fn set_row(work: &mut [u32], k: u32, kind: u32, previous: u32, inside: u32, word: u32)
    ensures { SetsRow k kind previous inside word work.old work.new }
{
    if 2048 <= k {
        return;
    }
    let row = k as usize;
    set_word(work, OUTCOMES + row, word);
    set_word(work, SHAPES + SHAPE_KIND + row, kind);
    set_word(work, SHAPES + SHAPE_PREVIOUS + row, previous);
    set_word(work, SHAPES + SHAPE_INSIDE + row, inside);
}
