// analyze of Parameter and Member.
#![tactic(auto)]

ghost use Rattle.std.specs.Prelude.{ℕ, false, true, List};
ghost use Rattle.penne.specs.Tree.{Spot, Ident};
ghost use Rattle.penne.specs.Read.{read_param};
ghost use Rattle.penne.specs.Reader.{listed};
ghost use Rattle.entries.specs.Entering.{Decides, Outside, InStructure, Under, param_walk, params_walk, member_walk, members_walk, TypesMember, DeclaresEntry, Stops, Refuses, NamesEntry};

use fields::counts::{count, entry};
use fields::field::read_identifier;
use fields::number::{below, number};
use fields::refusal::{Reason, Refusal};
use types::{contained_type, maybe_type};
use walk::edges::Holder;
use walk::items::{copy_poison, write_fault, write_ok};
use walk::state::Walk;

pub fn parameters(tree: &[u8], answer: &mut [u8], work: &mut [u32], st: &mut Walk)
    ensures { (l : List ℕ) → Under Outside tree.now (listed (read_param 63 false)) params_walk st.old answer.old l work.old st.new answer.new l work.new }
{
    let Ok((n, a)) = number(tree, st.at) else {
        return;
    };
    st.wrote = st.wrote.then_number(answer, n);
    st.at = a;
    for _ in 0..n {
        parameter(tree, answer, work, st);
    }
}

// The name before the type.
fn parameter(tree: &[u8], answer: &mut [u8], work: &mut [u32], st: &mut Walk)
    ensures walked { (l : List ℕ) → Under Outside tree.now (read_param 63 false) param_walk st.old answer.old l work.old st.new answer.new l work.new }
    ensures stopped { Stops tree.now st.old answer.old work.old st.new answer.new work.new }
{
    let Ok(_) = entry_name(tree, answer, work, st, 5) else {
        return;
    };
    maybe_type(tree, answer, work, st, 63);
}

// Place and name of a parameter (kind 5) or a member (6). What it answers is the place of the name, unless that is a poison; a refusal where they cannot be read, so that no type is looked for behind them.
fn entry_name(
    tree: &[u8],
    answer: &mut [u8],
    work: &mut [u32],
    st: &mut Walk,
    kind: u32,
) -> Result<Option<u32>, Refusal>
    ensures named { NamesEntry kind tree.now st.old answer.old work.old st.new result answer.new work.new }
    ensures stopped { Refuses tree.now st.old answer.old work.old st.new result answer.new work.new }
{
    let from = st.at;
    let (p, a) = number(tree, from)?;
    let c = count(st.counts, entry()).ok_or(Reason::TooMany.at(from))?;
    let (t, b) = below(tree, 2, a)?;
    st.wrote = st.wrote.then_number(answer, p);
    st.counts = c;
    st.at = b;
    if t != 0 {
        copy_poison(tree, answer, st, 1);
        return Ok(None);
    }
    declared(tree, answer, work, st, kind)
}

fn declared(
    tree: &[u8],
    answer: &mut [u8],
    work: &mut [u32],
    st: &mut Walk,
    kind: u32,
) -> Result<Option<u32>, Refusal>
    ensures { DeclaresEntry kind tree.now st.old answer.old work.old st.new result answer.new work.new }
{
    let from = st.at;
    let (i, a) = read_identifier(tree, st.script.names, from)?;
    let named = st.declare_variable(work, kind, i, from);
    st.at = a;
    match named {
        Ok(made) => {
            st.wrote = write_ok(answer, st.wrote, made);
            Ok(Some(made.place))
        }
        Err(fault) => {
            st.wrote = write_fault(answer, st.wrote, 1, fault);
            Ok(None)
        }
    }
}

// The members of the structure in that row. Beside `parameters`: it reads and promises something else.
pub fn members(tree: &[u8], answer: &mut [u8], work: &mut [u32], st: &mut Walk, row: u32)
    ensures { (c : Ident Spot) (l : List ℕ) → Under (InStructure row c) tree.now (listed (read_param 63 true)) (members_walk c) st.old answer.old l work.old st.new answer.new l work.new }
{
    let Ok((n, a)) = number(tree, st.at) else {
        return;
    };
    st.wrote = st.wrote.then_number(answer, n);
    st.at = a;
    for _ in 0..n {
        member(tree, answer, work, st, row);
    }
}

// Beside `parameter`: a member's type has edges.
fn member(tree: &[u8], answer: &mut [u8], work: &mut [u32], st: &mut Walk, row: u32)
    ensures walked { (c : Ident Spot) (l : List ℕ) → Under (InStructure row c) tree.now (read_param 63 true) (member_walk c) st.old answer.old l work.old st.new answer.new l work.new }
    ensures stopped { Stops tree.now st.old answer.old work.old st.new answer.new work.new }
{
    let Ok(name) = entry_name(tree, answer, work, st, 6) else {
        return;
    };
    let holder = member_holder(name, row as usize);
    member_type(tree, answer, work, st, holder);
}

// A member's type, with its edges where somebody holds them.
fn member_type(
    tree: &[u8],
    answer: &mut [u8],
    work: &mut [u32],
    st: &mut Walk,
    holder: Option<Holder>,
)
    ensures { (l : List ℕ) → TypesMember tree.now holder st.old answer.old l work.old st.new answer.new l work.new }
{
    match holder {
        Some(holder) => contained_type(tree, answer, work, st, holder, 63),
        None => maybe_type(tree, answer, work, st, 63),
    }
}

// analyze_wellfoundedness, by the place of the member's name: the structure holds a member's edges by that member, and "a member whose name was refused" adds none.
fn member_holder(name: Option<u32>, row: usize) -> Option<Holder>
    ensures { Decides name row result }
{
    let member = name?;
    Some(Holder {
        row,
        member: Some(member),
    })
}
