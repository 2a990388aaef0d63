// analyze of Statement, Block and FunctionBody. What the label pass decided of a statement is found by its number.
#![tactic(auto)]

ghost use Rattle.std.specs.Prelude.{ℕ, List, get_or};
ghost use Rattle.penne.specs.Reader.{listed};
ghost use Rattle.penne.specs.Read.{maybe, stmt_kinds, k_bad_stmt, stmt_of, read_stmt, read_declaration, read_assignment, read_method_call, read_if, else_of, read_block, read_body};
ghost use Rattle.penne.specs.Write.{stm_b};
ghost use Rattle.walk.specs.Walking.{Walks};
ghost use Rattle.statement_parts.specs.Stating.{read_loop, stm_walk, stms_walk, body_walk, body_ok_walk, Follows, Anything, Entered, Numbered};

use expression_parts::call_head;
use expressions::{expression, expressions, option_expression, reference};
use fields::counts::{count, statement_counts};
use fields::field::{operator, read_identifier};
use fields::number::{below, number};
use statement_parts::{body_id, declared, goto, label};
use types::option_type;
use walk::items::{copy_poison, write_fault};
use walk::state::Walk;

#[cycle(statements)]
pub fn stmt(
    tree: &[u8],
    answer: &mut [u8],
    list: &mut [u32],
    work: &mut [u32],
    st: &mut Walk,
    left: u32,
)
    ensures { Walks tree.now (read_stmt left) (stm_walk stm_b) st.old answer.old list.old work.old st.new answer.new list.new work.new }
{
    let Ok((k, a)) = below(tree, 9, st.at) else {
        return;
    };
    if left == 0 {
        return;
    }
    let n = st.counts.statements;
    let Some(c) = count(st.counts, statement_counts(k)) else {
        return;
    };
    st.counts = c;
    st.at = a;
    statement_of(tree, answer, list, work, st, left - 1, k, n);
}

// What follows a statement's kind, by the form's number, as in `types`; `n` is the statement's number.
#[cycle(statements)]
#[tactic(auto, using(crate::proofs::Arms::plain, crate::proofs::Arms::entered, crate::proofs::Arms::worded), unfolding(penne::specs::Read::stmt_of, penne::specs::Read::stmt_kinds))]
fn statement_of(
    tree: &[u8],
    answer: &mut [u8],
    list: &mut [u32],
    work: &mut [u32],
    st: &mut Walk,
    left: u32,
    kind: u32,
    n: u32,
)
    ensures { Follows (Numbered kind n st.old work.old) tree.now (stmt_of left (read_stmt left) (get_or stmt_kinds kind k_bad_stmt)) st.old answer.old list.old work.old st.new answer.new list.new work.new }
{
    match kind {
        0 => declaration(tree, answer, list, work, st, left),
        1 => assignment(tree, answer, list, work, st, left),
        2 => method_call(tree, answer, list, work, st, left),
        3 => loop_back(tree, answer, st),
        4 => goto(tree, answer, work, st, n),
        5 => label(tree, answer, work, st, n),
        6 => branches(tree, answer, list, work, st, left),
        7 => block(tree, answer, list, work, st, left),
        _ => copy_poison(tree, answer, st, 8),
    }
}

// A duplicate's value and type are analysed, then dropped.
fn declaration(
    tree: &[u8],
    answer: &mut [u8],
    list: &mut [u32],
    work: &mut [u32],
    st: &mut Walk,
    left: u32,
)
    ensures { Follows (Entered st.old) tree.now (read_declaration left) st.old answer.old list.old work.old st.new answer.new list.new work.new }
{
    let Ok((_, a)) = number(tree, st.at) else {
        return;
    };
    let before = st.wrote;
    st.wrote = before.then_head(answer, 0, tree, st.at, a);
    st.at = a;
    option_expression(tree, answer, list, work, st, left);
    option_type(tree, answer, work, st, left);
    declared(tree, answer, work, st, before);
}

fn assignment(
    tree: &[u8],
    answer: &mut [u8],
    list: &mut [u32],
    work: &mut [u32],
    st: &mut Walk,
    left: u32,
)
    ensures { Follows Anything tree.now (read_assignment left) st.old answer.old list.old work.old st.new answer.new list.new work.new }
{
    let Ok((_, a)) = number(tree, st.at) else {
        return;
    };
    st.wrote = st.wrote.then_head(answer, 1, tree, st.at, a);
    st.at = a;
    expression(tree, answer, list, work, st, left);
    reference(tree, answer, list, work, st, left);
}

// The arguments of a name that is refused are analysed, then dropped.
fn method_call(
    tree: &[u8],
    answer: &mut [u8],
    list: &mut [u32],
    work: &mut [u32],
    st: &mut Walk,
    left: u32,
)
    ensures { Follows Anything tree.now (read_method_call left) st.old answer.old list.old work.old st.new answer.new list.new work.new }
{
    let Ok((i, a)) = read_identifier(tree, st.script.names, st.at) else {
        return;
    };
    let Ok((n, b)) = number(tree, a) else {
        return;
    };
    match st.use_called(work, i, n) {
        Ok(made) => {
            call_head(tree, answer, st, 2, made, a, b);
            expressions(tree, answer, list, work, st, left);
        }
        Err(fault) => {
            let before = st.wrote;
            st.at = b;
            expressions(tree, answer, list, work, st, left);
            st.wrote = write_fault(answer, before, 8, fault);
        }
    }
}

fn loop_back(tree: &[u8], answer: &mut [u8], st: &mut Walk)
    ensures { (l w : List ℕ) → Follows Anything tree.now read_loop st.old answer.old l w st.new answer.new l w }
{
    let Ok((_, a)) = number(tree, st.at) else {
        return;
    };
    st.wrote = st.wrote.then_head(answer, 3, tree, st.at, a);
    st.at = a;
}

// An If.
#[cycle(statements)]
fn branches(
    tree: &[u8],
    answer: &mut [u8],
    list: &mut [u32],
    work: &mut [u32],
    st: &mut Walk,
    left: u32,
)
    ensures { Follows Anything tree.now (read_if left (read_stmt left)) st.old answer.old list.old work.old st.new answer.new list.new work.new }
{
    let Ok((_, a)) = number(tree, st.at) else {
        return;
    };
    let Ok(b) = operator(tree, a) else {
        return;
    };
    st.wrote = st.wrote.then_head(answer, 6, tree, st.at, b);
    st.at = b;
    expression(tree, answer, list, work, st, left);
    expression(tree, answer, list, work, st, left);
    stmt(tree, answer, list, work, st, left);
    else_branch(tree, answer, list, work, st, left);
}

#[cycle(statements)]
fn else_branch(
    tree: &[u8],
    answer: &mut [u8],
    list: &mut [u32],
    work: &mut [u32],
    st: &mut Walk,
    left: u32,
)
    ensures { Walks tree.now (else_of (read_stmt left)) (stm_walk stm_b) st.old answer.old list.old work.old st.new answer.new list.new work.new }
{
    let Ok((t, a)) = below(tree, 2, st.at) else {
        return;
    };
    if t == 0 {
        st.wrote = st.wrote.then_number(answer, 0);
        st.at = a;
        return;
    }
    let Ok((_, b)) = number(tree, a) else {
        return;
    };
    st.wrote = st.wrote.then_head(answer, 1, tree, a, b);
    st.at = b;
    stmt(tree, answer, list, work, st, left);
}

#[cycle(statements)]
fn block(
    tree: &[u8],
    answer: &mut [u8],
    list: &mut [u32],
    work: &mut [u32],
    st: &mut Walk,
    left: u32,
)
    ensures { Follows Anything tree.now (read_block (read_stmt left)) st.old answer.old list.old work.old st.new answer.new list.new work.new }
{
    let Ok((_, a)) = number(tree, st.at) else {
        return;
    };
    let outer = st.tables.scope;
    st.wrote = st.wrote.then_head(answer, 7, tree, st.at, a);
    st.at = a;
    st.push_scope();
    statements(tree, answer, list, work, st, left);
    st.pop_scope(work, outer);
}

// A list of statements.
#[cycle(statements)]
pub fn statements(
    tree: &[u8],
    answer: &mut [u8],
    list: &mut [u32],
    work: &mut [u32],
    st: &mut Walk,
    left: u32,
)
    ensures { Walks tree.now (listed (read_stmt left)) stms_walk st.old answer.old list.old work.old st.new answer.new list.new work.new }
{
    let Ok((n, a)) = number(tree, st.at) else {
        return;
    };
    st.wrote = st.wrote.then_number(answer, n);
    st.at = a;
    for _ in 0..n {
        stmt(tree, answer, list, work, st, left);
    }
}

// A body: its identifier takes the next id, after all inside.
fn body(tree: &[u8], answer: &mut [u8], list: &mut [u32], work: &mut [u32], st: &mut Walk)
    ensures { Walks tree.now (read_body 63) body_ok_walk st.old answer.old list.old work.old st.new answer.new list.new work.new }
{
    let outer = st.tables.scope;
    st.push_scope();
    statements(tree, answer, list, work, st, 63);
    option_expression(tree, answer, list, work, st, 63);
    st.pop_scope(work, outer);
    body_id(tree, answer, st);
}

// A poisoned body stays.
pub fn maybe_body(tree: &[u8], answer: &mut [u8], list: &mut [u32], work: &mut [u32], st: &mut Walk)
    ensures { Walks tree.now (maybe (read_body 63)) body_walk st.old answer.old list.old work.old st.new answer.new list.new work.new }
{
    let Ok((t, a)) = below(tree, 2, st.at) else {
        return;
    };
    if t != 0 {
        st.at = a;
        copy_poison(tree, answer, st, 1);
        return;
    }
    st.wrote = st.wrote.then_number(answer, 0);
    st.at = a;
    body(tree, answer, list, work, st);
}
