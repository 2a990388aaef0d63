// What an expression is made of that holds no expression: values without parts, names, the numbers that arrays and calls carry.
#![tactic(auto)]

ghost use Rattle.std.specs.Prelude.{ℕ, false, List};
ghost use Rattle.penne.specs.Reader.{num};
ghost use Rattle.penne.specs.Tree.{Spot, Carried, Expr, expr};
ghost use Rattle.penne.specs.Read.{ident, maybe, read, read_ty, step_of, read_boolean, read_integer, read_string};
ghost use Rattle.penne.specs.Write.{ident_b, maybe_b, node_b};
ghost use Rattle.penne.specs.Variables.{analyze_base, analyze_node};
ghost use Rattle.answer.specs.Out.{Put};
ghost use Rattle.walk.specs.Walking.{onward, Walks};
ghost use Rattle.expression_parts.specs.Expressing.{Headed, Integer, array_number, refusing, say_text, text, used_b};

use answer::wrote::Wrote;
use fields::field::{Identifier, past_identifier, raw, read_identifier};
use fields::number::{below, number};
use nodes::node::expression as past_expression;
use nodes::value_type::carried;
use walk::fault::Fault;
use walk::items::{copy_poison, write_fault, write_ok};
use walk::state::Walk;

pub fn boolean(tree: &[u8], answer: &mut [u8], st: &mut Walk)
    ensures { (l w : List ℕ) → Walks tree.now read_boolean (onward analyze_node node_b) st.old answer.old l w st.new answer.new l w }
{
    let Ok((_, a)) = below(tree, 2, st.at) else {
        return;
    };
    let Ok((_, b)) = number(tree, a) else {
        return;
    };
    st.wrote = st.wrote.then_head(answer, 2, tree, st.at, b);
    st.at = b;
}

// A signed or a bit integer.
pub fn integer(tree: &[u8], answer: &mut [u8], st: &mut Walk, left: u32, kind: u32)
    ensures { (f : List ℕ → Spot → Carried Spot → Expr Spot) → Integer kind f → (l w : List ℕ) → Walks tree.now (read_integer f (read_ty left false)) (onward analyze_node node_b) st.old answer.old l w st.new answer.new l w }
{
    let Ok(a) = raw(tree, st.at, 16) else {
        return;
    };
    let Ok((_, b)) = number(tree, a) else {
        return;
    };
    let Ok(c) = carried(tree, st.script.names, b, left) else {
        return;
    };
    st.wrote = st
        .wrote
        .then_number(answer, kind)
        .then_copy(answer, tree, st.at, a)
        .then_numbers(answer, tree, a, c);
    st.at = c;
}

pub fn string(tree: &[u8], answer: &mut [u8], st: &mut Walk)
    ensures { (l w : List ℕ) → Walks tree.now read_string (onward analyze_node node_b) st.old answer.old l w st.new answer.new l w }
{
    copy_text(tree, answer, st, 5);
}

// The kind of a string or an import, then its bytes and its place, as they came in.
pub fn copy_text(tree: &[u8], answer: &mut [u8], st: &mut Walk, kind: u32)
    ensures { (l w : List ℕ) → Walks tree.now text (say_text kind) st.old answer.old l w st.new answer.new l w }
{
    let Ok((length, a)) = number(tree, st.at) else {
        return;
    };
    let Ok(b) = raw(tree, a, length) else {
        return;
    };
    let Ok((place, c)) = number(tree, b) else {
        return;
    };
    st.wrote = st
        .wrote
        .then_head(answer, kind, tree, st.at, a)
        .then_copy(answer, tree, a, b)
        .then_number(answer, place);
    st.at = c;
}

pub fn array_id(tree: &[u8], answer: &mut [u8], st: &mut Walk)
    ensures { (l w : List ℕ) → Walks tree.now num array_number st.old answer.old l w st.new answer.new l w }
{
    let Ok((_, a)) = number(tree, st.at) else {
        return;
    };
    st.wrote = st.wrote.then_number(answer, st.tables.next_id);
    st.at = a;
    st.create_anonymous_resolution_id();
}

pub fn past_operand(tree: &[u8], answer: &mut [u8], st: &mut Walk, fault: Fault, left: u32)
    ensures { (l w : List ℕ) → Walks tree.now (read left expr) (refusing 15 fault) st.old answer.old l w st.new answer.new l w }
{
    let Ok(a) = past_expression(tree, st.script.names, st.at, left) else {
        return;
    };
    st.wrote = write_fault(answer, st.wrote, 15, fault);
    st.at = a;
}

// The kind of a call, its name, and the numbers behind it.
pub fn call_head(
    tree: &[u8],
    answer: &mut [u8],
    st: &mut Walk,
    kind: u32,
    i: Identifier,
    from: usize,
    to: usize,
)
    ensures { Headed st.old kind i tree.now from to answer.old st.new answer.new }
{
    st.wrote = st
        .wrote
        .then_number(answer, kind)
        .then_identifier(answer, i)
        .then_numbers(answer, tree, from, to);
    st.at = to;
}

// The base of a reference.
pub fn base(tree: &[u8], answer: &mut [u8], list: &mut [u32], work: &mut [u32], st: &mut Walk)
    ensures { Walks tree.now (maybe ident) (onward analyze_base (maybe_b ident_b)) st.old answer.old list.old work.old st.new answer.new list.new work.new }
{
    let Ok((t, a)) = below(tree, 2, st.at) else {
        return;
    };
    if t != 0 {
        st.at = a;
        return copy_poison(tree, answer, st, 1);
    }
    let Ok((i, b)) = read_identifier(tree, st.script.names, a) else {
        return;
    };
    let used = st.use_variable(list, work, i, a);
    st.wrote = write_used(answer, st.wrote, used);
    st.at = b;
}

// "Maybe identifier", as the name was looked up.
fn write_used(answer: &mut [u8], w: Wrote, used: Result<Identifier, Fault>) -> Wrote
    ensures { Put w (used_b used) answer.old result answer.new }
{
    match used {
        Ok(made) => write_ok(answer, w, made),
        Err(fault) => write_fault(answer, w, 1, fault),
    }
}

pub fn member(tree: &[u8], answer: &mut [u8], st: &mut Walk)
    ensures { (l w : List ℕ) → Walks tree.now (step_of (read 0) 1) (onward analyze_node node_b) st.old answer.old l w st.new answer.new l w }
{
    let Ok(a) = past_identifier(tree, st.script.names, st.at) else {
        return;
    };
    let Ok((_, b)) = number(tree, a) else {
        return;
    };
    st.wrote = st.wrote.then_head(answer, 1, tree, st.at, b);
    st.at = b;
}
