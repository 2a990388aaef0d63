// analyze of Declaration, but for bodies: constants, structures, heads, imports, what a declaration begins with, and what stands in the place of a duplicate.
#![tactic(auto)]

ghost use Rattle.std.specs.Prelude.{ℕ, ◌<◌, ◌≡◌, false, true, List, ◌++◌};
ghost use Rattle.penne.specs.Tree.{Spot};
ghost use Rattle.penne.specs.Read.{read_decl, read_import};
ghost use Rattle.penne.specs.Write.{place_b, decl_b};
ghost use Rattle.answer.specs.Parts.{renumbered};
ghost use Rattle.walk.specs.Walking.{say, Walks};
ghost use Rattle.stages.specs.Heads.{own};
ghost use Rattle.declaration_parts.specs.Heading.{drop_walk, begun_container, begun_function, NewContainer, NewFunction, Arm, constant_parts, head_parts, structure_parts, Starts, MainFlag};

use entries::{members, parameters};
use expression_parts::copy_text;
use expressions::expression;
use fields::field::Identifier;
use stages::heads::Start;
use tree::declaration::declaration as past_declaration;
use types::{contained_type, maybe_type};
use walk::edges::{Holder, container_at};
use walk::fault::Fault;
use walk::items::write_fault;
use walk::names::function_at;
use walk::state::Walk;

// Nothing in it is looked at.
pub fn drop_declaration(tree: &[u8], answer: &mut [u8], st: &mut Walk, fault: Fault)
    ensures { (l w : List ℕ) → Walks tree.now read_decl (drop_walk fault) st.old answer.old l w st.new answer.new l w }
{
    let Ok((behind, more)) = past_declaration(tree, st.script.names, st.counts, st.at) else {
        return;
    };
    st.wrote = write_fault(answer, st.wrote, 5, fault);
    st.counts = more;
    st.at = behind;
}

// Kind, flags, places and identifier are written; the walk is at the declaration's parts.
pub fn started(
    tree: &[u8],
    answer: &mut [u8],
    st: &mut Walk,
    kind: u32,
    flags: u32,
    h: Start,
    i: Identifier,
)
    ensures { Starts tree.now kind flags h i st.old answer.old st.new answer.new }
{
    st.wrote = st
        .wrote
        .then_number(answer, kind)
        .then_number(answer, flags)
        .then_numbers(answer, tree, h.places, h.from)
        .then_identifier(answer, i);
    st.at = h.parts;
}

// In its value a use is an edge.
pub fn constant(
    tree: &[u8],
    answer: &mut [u8],
    list: &mut [u32],
    work: &mut [u32],
    st: &mut Walk,
    h: Start,
    row: u32,
)
    ensures { (p q : Spot) → row < 128 → renumbered tree.now h.places h.from ≡ place_b p ++ place_b q → Arm (NewContainer false row (own h)) (begun_container (own h)) tree.now (constant_parts h.flags p q (own h)) h.parts st.old answer.old list.old work.old st.new answer.new list.new work.new }
{
    if 128 <= row {
        return;
    }
    let declared = container_at(work, row as usize);
    let i = Identifier {
        id: declared.id,
        authority: 1,
        ..h.identifier
    };
    started(tree, answer, st, 0, h.flags, h, i);
    st.in_constexpr_of(Some(row));
    expression(tree, answer, list, work, st, 63);
    st.in_constexpr_of(None);
    let holder = Holder {
        row: row as usize,
        member: None,
    };
    contained_type(tree, answer, work, st, holder, 63);
}

// "gains flag 4", where it is not there already.
pub fn with_main(flags: u32, name: u32, main: u32) -> u32
    ensures { MainFlag flags name main result }
{
    if name == main {
        return flags | 4;
    }
    flags
}

pub fn function_head(
    tree: &[u8],
    answer: &mut [u8],
    work: &mut [u32],
    st: &mut Walk,
    h: Start,
    row: u32,
)
    ensures { (p q : Spot) (l : List ℕ) → renumbered tree.now h.places h.from ≡ place_b p ++ place_b q → Arm (NewFunction row (own h)) (begun_function (own h)) tree.now (head_parts h.flags p q (own h)) h.parts st.old answer.old l work.old st.new answer.new l work.new }
{
    let outer = st.tables.scope;
    let declared = function_at(work, row as usize);
    let i = Identifier {
        id: declared.id,
        authority: 0,
        ..h.identifier
    };
    started(tree, answer, st, 2, h.flags, h, i);
    st.push_scope();
    parameters(tree, answer, work, st);
    st.pop_scope(work, outer);
    maybe_type(tree, answer, work, st, 63);
}

pub fn structure(
    tree: &[u8],
    answer: &mut [u8],
    work: &mut [u32],
    st: &mut Walk,
    h: Start,
    row: u32,
)
    ensures { (p : Spot) (l : List ℕ) → renumbered tree.now h.places h.from ≡ place_b p → Arm (NewContainer true row (own h)) (begun_container (own h)) tree.now (structure_parts h.flags p (own h)) h.parts st.old answer.old l work.old st.new answer.new l work.new }
{
    let outer = st.tables.scope;
    let declared = container_at(work, row as usize);
    let i = Identifier {
        id: declared.id,
        authority: 1,
        ..h.identifier
    };
    started(tree, answer, st, 3, h.flags, h, i);
    st.push_scope();
    members(tree, answer, work, st, row);
    st.pop_scope(work, outer);
    maybe_type(tree, answer, work, st, 63);
}

pub fn import(tree: &[u8], answer: &mut [u8], st: &mut Walk)
    ensures { (l w : List ℕ) → Walks tree.now read_import (λ d a. say (decl_b d) a) st.old answer.old l w st.new answer.new l w }
{
    copy_text(tree, answer, st, 4);
}
