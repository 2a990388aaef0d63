// analyze of Expression, Array, Reference and ReferenceStep, which hold one another. `left` is how many levels of nesting are left.
// Where a part cannot be read the walk stops there: the tree was read before, so that this does not happen.
#![tactic(auto)]

ghost use Rattle.std.specs.Prelude.{ℕ, false, List, get_or};
ghost use Rattle.penne.specs.Reader.{listed};
ghost use Rattle.penne.specs.Tree.{expr, ref, step};
ghost use Rattle.penne.specs.Read.{option, read, read_ty, item_of, step_of, expr_kinds, k_bad_expr, expr_of, read_binary, read_unary, read_array_literal, read_structural, read_parenthesized, read_deref, read_bit_cast, read_type_cast, read_length_of_array, read_size_of, read_function_call};
ghost use Rattle.penne.specs.Write.{option_b, node_b};
ghost use Rattle.penne.specs.Variables.{analyze_node, analyze_option};
ghost use Rattle.walk.specs.Walking.{onward, Walks};
ghost use Rattle.expression_parts.specs.Expressing.{list_walk};

use expression_parts::{array_id, base, boolean, call_head, integer, member, past_operand, string};
use fields::field::{operator, read_identifier, two_places};
use fields::number::{below, number};
use fields::poison::maybe_identifier;
use nodes::value_type::carried;
use types::{maybe_type, value_type};
use walk::items::{copy_poison, write_fault};
use walk::state::Walk;

#[cycle(expressions)]
pub fn expression(
    tree: &[u8],
    answer: &mut [u8],
    list: &mut [u32],
    work: &mut [u32],
    st: &mut Walk,
    left: u32,
)
    ensures { Walks tree.now (read left expr) (onward analyze_node node_b) st.old answer.old list.old work.old st.new answer.new list.new work.new }
{
    let Ok((k, a)) = below(tree, 16, st.at) else {
        return;
    };
    if left == 0 {
        return;
    }
    st.at = a;
    expression_of(tree, answer, list, work, st, left - 1, k);
}

// What follows an expression's kind, by the form's number, as in `types`.
#[cycle(expressions)]
#[tactic(auto, unfolding(penne::specs::Read::expr_of, penne::specs::Read::expr_kinds))]
fn expression_of(
    tree: &[u8],
    answer: &mut [u8],
    list: &mut [u32],
    work: &mut [u32],
    st: &mut Walk,
    left: u32,
    kind: u32,
)
    ensures { Walks tree.now (expr_of (read left) (read_ty left false) (get_or expr_kinds kind k_bad_expr)) (onward analyze_node node_b) st.old answer.old list.old work.old st.new answer.new list.new work.new }
{
    match kind {
        0 => binary(tree, answer, list, work, st, left),
        1 => unary(tree, answer, list, work, st, left),
        2 => boolean(tree, answer, st),
        3 => integer(tree, answer, st, left, 3),
        4 => integer(tree, answer, st, left, 4),
        5 => string(tree, answer, st),
        6 => array_literal(tree, answer, list, work, st, left),
        7 => structural(tree, answer, list, work, st, left),
        8 => parenthesized(tree, answer, list, work, st, left),
        9 => deref(tree, answer, list, work, st, left),
        10 => bit_cast(tree, answer, list, work, st, left),
        11 => type_cast(tree, answer, list, work, st, left),
        12 => length_of_array(tree, answer, list, work, st, left),
        13 => size_of(tree, answer, work, st, left),
        14 => function_call(tree, answer, list, work, st, left),
        _ => copy_poison(tree, answer, st, 15),
    }
}

#[cycle(expressions)]
fn binary(
    tree: &[u8],
    answer: &mut [u8],
    list: &mut [u32],
    work: &mut [u32],
    st: &mut Walk,
    left: u32,
)
    ensures { Walks tree.now (read_binary (read left)) (onward analyze_node node_b) st.old answer.old list.old work.old st.new answer.new list.new work.new }
{
    let Ok(a) = operator(tree, st.at) else {
        return;
    };
    st.wrote = st.wrote.then_head(answer, 0, tree, st.at, a);
    st.at = a;
    expression(tree, answer, list, work, st, left);
    expression(tree, answer, list, work, st, left);
}

#[cycle(expressions)]
fn unary(
    tree: &[u8],
    answer: &mut [u8],
    list: &mut [u32],
    work: &mut [u32],
    st: &mut Walk,
    left: u32,
)
    ensures { Walks tree.now (read_unary (read left)) (onward analyze_node node_b) st.old answer.old list.old work.old st.new answer.new list.new work.new }
{
    let Ok(a) = operator(tree, st.at) else {
        return;
    };
    st.wrote = st.wrote.then_head(answer, 1, tree, st.at, a);
    st.at = a;
    expression(tree, answer, list, work, st, left);
}

// Its id is the next one behind its elements.
#[cycle(expressions)]
fn array_literal(
    tree: &[u8],
    answer: &mut [u8],
    list: &mut [u32],
    work: &mut [u32],
    st: &mut Walk,
    left: u32,
)
    ensures { Walks tree.now (read_array_literal (read left) (read_ty left false)) (onward analyze_node node_b) st.old answer.old list.old work.old st.new answer.new list.new work.new }
{
    let Ok((_, a)) = number(tree, st.at) else {
        return;
    };
    let Ok(b) = carried(tree, st.script.names, a, left) else {
        return;
    };
    st.wrote = st.wrote.then_head(answer, 6, tree, st.at, b);
    st.at = b;
    let outer = st.tables.scope;
    st.push_scope();
    expressions(tree, answer, list, work, st, left);
    st.pop_scope(work, outer);
    array_id(tree, answer, st);
}

#[cycle(expressions)]
fn structural(
    tree: &[u8],
    answer: &mut [u8],
    list: &mut [u32],
    work: &mut [u32],
    st: &mut Walk,
    left: u32,
)
    ensures { Walks tree.now (read_structural (read left) (read_ty left false)) (onward analyze_node node_b) st.old answer.old list.old work.old st.new answer.new list.new work.new }
{
    let Ok((_, a)) = number(tree, st.at) else {
        return;
    };
    st.wrote = st.wrote.then_head(answer, 7, tree, st.at, a);
    st.at = a;
    items(tree, answer, list, work, st, left);
    maybe_type(tree, answer, work, st, left);
}

#[cycle(expressions)]
fn parenthesized(
    tree: &[u8],
    answer: &mut [u8],
    list: &mut [u32],
    work: &mut [u32],
    st: &mut Walk,
    left: u32,
)
    ensures { Walks tree.now (read_parenthesized (read left)) (onward analyze_node node_b) st.old answer.old list.old work.old st.new answer.new list.new work.new }
{
    let Ok((_, a)) = number(tree, st.at) else {
        return;
    };
    st.wrote = st.wrote.then_head(answer, 8, tree, st.at, a);
    st.at = a;
    expression(tree, answer, list, work, st, left);
}

#[cycle(expressions)]
fn deref(
    tree: &[u8],
    answer: &mut [u8],
    list: &mut [u32],
    work: &mut [u32],
    st: &mut Walk,
    left: u32,
)
    ensures { Walks tree.now (read_deref (read left) (read_ty left false)) (onward analyze_node node_b) st.old answer.old list.old work.old st.new answer.new list.new work.new }
{
    let Ok(a) = carried(tree, st.script.names, st.at, left) else {
        return;
    };
    st.wrote = st.wrote.then_head(answer, 9, tree, st.at, a);
    st.at = a;
    reference(tree, answer, list, work, st, left);
}

#[cycle(expressions)]
fn bit_cast(
    tree: &[u8],
    answer: &mut [u8],
    list: &mut [u32],
    work: &mut [u32],
    st: &mut Walk,
    left: u32,
)
    ensures { Walks tree.now (read_bit_cast (read left) (read_ty left false)) (onward analyze_node node_b) st.old answer.old list.old work.old st.new answer.new list.new work.new }
{
    let Ok(a) = two_places(tree, st.at) else {
        return;
    };
    let Ok(b) = carried(tree, st.script.names, a, left) else {
        return;
    };
    st.wrote = st.wrote.then_head(answer, 10, tree, st.at, b);
    st.at = b;
    expression(tree, answer, list, work, st, left);
}

// "A cast whose type is refused never looks at its operand."
#[cycle(expressions)]
fn type_cast(
    tree: &[u8],
    answer: &mut [u8],
    list: &mut [u32],
    work: &mut [u32],
    st: &mut Walk,
    left: u32,
)
    ensures { Walks tree.now (read_type_cast (read left) (read_ty left false)) (onward analyze_node node_b) st.old answer.old list.old work.old st.new answer.new list.new work.new }
{
    let Ok(a) = two_places(tree, st.at) else {
        return;
    };
    let before = st.wrote;
    st.wrote = st.wrote.then_head(answer, 11, tree, st.at, a);
    st.at = a;
    match value_type(tree, answer, work, st, left) {
        Ok(()) => expression(tree, answer, list, work, st, left),
        Err(fault) => {
            st.wrote = before;
            past_operand(tree, answer, st, fault, left);
        }
    }
}

#[cycle(expressions)]
fn length_of_array(
    tree: &[u8],
    answer: &mut [u8],
    list: &mut [u32],
    work: &mut [u32],
    st: &mut Walk,
    left: u32,
)
    ensures { Walks tree.now (read_length_of_array (read left)) (onward analyze_node node_b) st.old answer.old list.old work.old st.new answer.new list.new work.new }
{
    let Ok((_, a)) = number(tree, st.at) else {
        return;
    };
    st.wrote = st.wrote.then_head(answer, 12, tree, st.at, a);
    st.at = a;
    reference(tree, answer, list, work, st, left);
}

fn size_of(tree: &[u8], answer: &mut [u8], work: &mut [u32], st: &mut Walk, left: u32)
    ensures { (l : List ℕ) → Walks tree.now (read_size_of (read_ty left false)) (onward analyze_node node_b) st.old answer.old l work.old st.new answer.new l work.new }
{
    let Ok((_, a)) = number(tree, st.at) else {
        return;
    };
    let before = st.wrote;
    st.wrote = st.wrote.then_head(answer, 13, tree, st.at, a);
    st.at = a;
    if let Err(fault) = value_type(tree, answer, work, st, left) {
        st.wrote = write_fault(answer, before, 15, fault);
    }
}

// "Arguments of a call to an undefined function are analysed, then dropped with the call."
#[cycle(expressions)]
fn function_call(
    tree: &[u8],
    answer: &mut [u8],
    list: &mut [u32],
    work: &mut [u32],
    st: &mut Walk,
    left: u32,
)
    ensures { Walks tree.now (read_function_call (read left) (read_ty left false)) (onward analyze_node node_b) st.old answer.old list.old work.old st.new answer.new list.new work.new }
{
    let Ok((i, a)) = read_identifier(tree, st.script.names, st.at) else {
        return;
    };
    let Ok((n, b)) = number(tree, a) else {
        return;
    };
    let Ok(c) = carried(tree, st.script.names, b, left) else {
        return;
    };
    match st.use_called(work, i, n) {
        Ok(made) => {
            call_head(tree, answer, st, 14, made, a, c);
            expressions(tree, answer, list, work, st, left);
        }
        Err(fault) => {
            let before = st.wrote;
            st.at = c;
            expressions(tree, answer, list, work, st, left);
            st.wrote = write_fault(answer, before, 15, fault);
        }
    }
}

// A list of expressions. This loop, that of `items` and that of `steps` are written out: in the cycle a function that takes a closure gets no generated proof.
#[cycle(expressions)]
pub fn expressions(
    tree: &[u8],
    answer: &mut [u8],
    list: &mut [u32],
    work: &mut [u32],
    st: &mut Walk,
    left: u32,
)
    ensures { Walks tree.now (listed (read left expr)) list_walk st.old answer.old list.old work.old st.new answer.new list.new work.new }
{
    let Ok((n, a)) = number(tree, st.at) else {
        return;
    };
    st.wrote = st.wrote.then_number(answer, n);
    st.at = a;
    for _ in 0..n {
        expression(tree, answer, list, work, st, left);
    }
}

// The list of a structural literal's members.
#[cycle(expressions)]
fn items(
    tree: &[u8],
    answer: &mut [u8],
    list: &mut [u32],
    work: &mut [u32],
    st: &mut Walk,
    left: u32,
)
    ensures { Walks tree.now (listed (item_of (read left))) list_walk st.old answer.old list.old work.old st.new answer.new list.new work.new }
{
    let Ok((n, a)) = number(tree, st.at) else {
        return;
    };
    st.wrote = st.wrote.then_number(answer, n);
    st.at = a;
    for _ in 0..n {
        item(tree, answer, list, work, st, left);
    }
}

#[cycle(expressions)]
fn item(
    tree: &[u8],
    answer: &mut [u8],
    list: &mut [u32],
    work: &mut [u32],
    st: &mut Walk,
    left: u32,
)
    ensures { Walks tree.now (item_of (read left)) (onward analyze_node node_b) st.old answer.old list.old work.old st.new answer.new list.new work.new }
{
    let Ok(a) = maybe_identifier(tree, st.script.names, st.at) else {
        return;
    };
    let Ok((_, b)) = number(tree, a) else {
        return;
    };
    st.wrote = st.wrote.then_numbers(answer, tree, st.at, b);
    st.at = b;
    expression(tree, answer, list, work, st, left);
}

#[cycle(expressions)]
pub fn reference(
    tree: &[u8],
    answer: &mut [u8],
    list: &mut [u32],
    work: &mut [u32],
    st: &mut Walk,
    left: u32,
)
    ensures { Walks tree.now (read left ref) (onward analyze_node node_b) st.old answer.old list.old work.old st.new answer.new list.new work.new }
{
    let Ok((_, a)) = below(tree, 256, st.at) else {
        return;
    };
    if left == 0 {
        return;
    }
    let Ok(b) = two_places(tree, a) else {
        return;
    };
    st.wrote = st.wrote.then_numbers(answer, tree, st.at, b);
    st.at = b;
    base(tree, answer, list, work, st);
    steps(tree, answer, list, work, st, left - 1);
}

#[cycle(expressions)]
fn steps(
    tree: &[u8],
    answer: &mut [u8],
    list: &mut [u32],
    work: &mut [u32],
    st: &mut Walk,
    left: u32,
)
    ensures { Walks tree.now (listed (read left step)) list_walk st.old answer.old list.old work.old st.new answer.new list.new work.new }
{
    let Ok((n, a)) = number(tree, st.at) else {
        return;
    };
    st.wrote = st.wrote.then_number(answer, n);
    st.at = a;
    for _ in 0..n {
        step(tree, answer, list, work, st, left);
    }
}

#[cycle(expressions)]
fn step(
    tree: &[u8],
    answer: &mut [u8],
    list: &mut [u32],
    work: &mut [u32],
    st: &mut Walk,
    left: u32,
)
    ensures { Walks tree.now (read left step) (onward analyze_node node_b) st.old answer.old list.old work.old st.new answer.new list.new work.new }
{
    let Ok((k, a)) = below(tree, 2, st.at) else {
        return;
    };
    if left == 0 {
        return;
    }
    st.at = a;
    // The form's own numbers, as with the kinds of expressions.
    match k {
        0 => element(tree, answer, list, work, st, left - 1),
        _ => member(tree, answer, st),
    }
}

#[cycle(expressions)]
fn element(
    tree: &[u8],
    answer: &mut [u8],
    list: &mut [u32],
    work: &mut [u32],
    st: &mut Walk,
    left: u32,
)
    ensures { Walks tree.now (step_of (read left) 0) (onward analyze_node node_b) st.old answer.old list.old work.old st.new answer.new list.new work.new }
{
    let Ok((_, a)) = below(tree, 3, st.at) else {
        return;
    };
    st.wrote = st.wrote.then_head(answer, 0, tree, st.at, a);
    st.at = a;
    expression(tree, answer, list, work, st, left);
}

pub fn option_expression(
    tree: &[u8],
    answer: &mut [u8],
    list: &mut [u32],
    work: &mut [u32],
    st: &mut Walk,
    left: u32,
)
    ensures { Walks tree.now (option (read left expr)) (onward (analyze_option analyze_node) (option_b node_b)) st.old answer.old list.old work.old st.new answer.new list.new work.new }
{
    let Ok((t, a)) = below(tree, 2, st.at) else {
        return;
    };
    st.wrote = st.wrote.then_number(answer, t);
    st.at = a;
    if t != 0 {
        expression(tree, answer, list, work, st, left);
    }
}
