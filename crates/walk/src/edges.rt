// What is contained in a constant or a structure.
ghost use Rattle.std.specs.Prelude.{Bool};
ghost use Rattle.penne.specs.Read.{read_ty};
ghost use Rattle.walk.specs.Calls.{FindsIn, ContainerAt, EdgeTo, Cyclical, ConstantIn, FoundNamed, FoundLength, FoundIn};

use super::fault::Fault;
use super::state::Script;
use containers::containers::{
    Contained, Declared, constant_in_cycle, container, find_container, found_container_1,
};
use fields::field::read_identifier;
use fields::number::below;
use memory::layout::{CONTAINERS, CONTAINERS_END, WORDS};
use nodes::value_type::value_type;

// Who contains: a constant or structure by its row; in a structure, the place of its member.
#[derive(Clone, Copy)]
pub struct Holder {
    pub row: usize,
    pub member: Option<u32>,
}

#[tactic(auto, using(crate::proofs::Looking::finds_none))]
pub fn find_in(work: &[u32], script: Script, kind: u32, name: u32) -> Option<usize>
    ensures { FindsIn script kind name work.now result }
{
    if work.len() < WORDS {
        return None;
    }
    let count = script.containers as usize;
    find_container(&work[CONTAINERS..CONTAINERS_END], count, kind, name)
}

pub fn container_at(work: &[u32], row: usize) -> Declared
    ensures { ContainerAt row work.now result }
{
    if work.len() < WORDS {
        return Declared::NONE;
    }
    container(&work[CONTAINERS..CONTAINERS_END], row)
}

// found_container_1, with the poison it answers.
pub fn edge_to(
    work: &mut [u32],
    script: Script,
    holder: Holder,
    containee: usize,
) -> Result<(), Fault>
    ensures { EdgeTo script holder containee work.old result work.new }
{
    if work.len() < WORDS {
        return Ok(());
    }
    let count = script.containers as usize;
    let rows = &mut work[CONTAINERS..CONTAINERS_END];
    match found_container_1(rows, count, holder.row, containee) {
        Contained::Fine => Ok(()),
        Contained::Poisoned => Err(Fault::Poisoned),
        Contained::Cyclical => Err(cyclical(work, script, holder)),
    }
}

// The error of a container that now contains itself: CyclicalConstant (14) of a constant, CyclicalStructureWithConstant (16) or CyclicalStructure (15) of a structure at its member.
#[tactic(auto, using(crate::proofs::Cycling::cyclical_constant, crate::proofs::Cycling::cyclical_structure_lem, crate::proofs::Cycling::cyclical_both))]
fn cyclical(work: &[u32], script: Script, holder: Holder) -> Fault
    ensures { Cyclical script holder work.now result }
{
    let Declared { name, place, .. } = container_at(work, holder.row);
    let Some(member) = holder.member else {
        return Fault::CyclicalConstant { name, place };
    };
    match constant_in(work, script, holder.row) {
        Some(k) => {
            let constant = container_at(work, k);
            Fault::CyclicalStructureWithConstant {
                name,
                constant: constant.name,
                place,
                member,
                place_of_constant: constant.place,
            }
        }
        None => Fault::CyclicalStructure {
            name,
            place,
            member,
        },
    }
}

fn constant_in(work: &[u32], script: Script, row: usize) -> Option<usize>
    ensures { ConstantIn script row work.now result }
{
    if work.len() < WORDS {
        return None;
    }
    let count = script.containers as usize;
    constant_in_cycle(&work[CONTAINERS..CONTAINERS_END], count, row)
}

// found_container, over a type all whose names are found; it "ignores Pointer and View".
#[cycle(edges)]
pub fn found_container(
    tree: &[u8],
    work: &mut [u32],
    script: Script,
    holder: Holder,
    at: usize,
    left: u32,
) -> Result<(), Fault>
    ensures { (own : Bool) → FoundIn tree.now (read_ty left own) script holder at work.old result work.new }
{
    let Ok((k, a)) = below(tree, 26, at) else {
        return Ok(());
    };
    if left == 0 {
        return Ok(());
    }
    match k {
        14 => found_container(tree, work, script, holder, a, left - 1),
        15 => found_in_named_length(tree, work, script, holder, a, left - 1),
        16..=19 => found_container(tree, work, script, holder, a, left - 1),
        20..=22 => found_named(tree, work, script, holder, a, 3),
        _ => Ok(()),
    }
}

// The element before the length.
#[cycle(edges)]
fn found_in_named_length(
    tree: &[u8],
    work: &mut [u32],
    script: Script,
    holder: Holder,
    at: usize,
    left: u32,
) -> Result<(), Fault>
    ensures { (own : Bool) → FoundLength tree.now (read_ty left own) script holder at work.old result work.new }
{
    found_container(tree, work, script, holder, at, left)?;
    let Ok(a) = value_type(tree, script.names, false, at, left) else {
        return Ok(());
    };
    found_named(tree, work, script, holder, a, 0)
}

// The constant (kind 0) or structure (3) named by the identifier at `at`.
fn found_named(
    tree: &[u8],
    work: &mut [u32],
    script: Script,
    holder: Holder,
    at: usize,
    kind: u32,
) -> Result<(), Fault>
    ensures { FoundNamed tree.now script holder at kind work.old result work.new }
{
    let Ok((i, _)) = read_identifier(tree, script.names, at) else {
        return Ok(());
    };
    let Some(row) = find_in(work, script, kind, i.name) else {
        return Ok(());
    };
    edge_to(work, script, holder, row)
}
