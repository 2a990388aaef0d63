// What statements and bodies are made of that holds no statement: gotos and labels, a declared name, a body's own name. What the label pass decided of a goto or label is found by its number.
#![tactic(auto)]

ghost use Rattle.std.specs.Prelude.{ℕ, List, ◌++◌};
ghost use Rattle.penne.specs.Write.{num_b, ident_b};
ghost use Rattle.answer.specs.Out.{Put};
ghost use Rattle.walk.specs.Walking.{made_b, Walks, onward};
ghost use Rattle.statement_parts.specs.Stating.{read_goto, read_label, Follows, Worded, Prepares, Prunes, LabelPlace, name_body, Declares};
ghost use Rattle.penne.specs.Read.{ident};

use answer::identifier::resolved;
use answer::wrote::Wrote;
use fields::field::{Identifier, read_identifier};
use fields::number::number;
use labels::outcome_of;
use memory::layout::{LABEL_PLACE, SCOPES, SCOPES_END, WORDS};
use memory::words::word;
use scopes::pruning::prepare_to_prune_at_goto;
use walk::fault::{Fault, duplicate_label};
use walk::items::write_fault;
use walk::state::Walk;

pub fn goto(tree: &[u8], answer: &mut [u8], work: &mut [u32], st: &mut Walk, n: u32)
    ensures { (l : List ℕ) → Follows (Worded n work.old) tree.now read_goto st.old answer.old l work.old st.new answer.new l work.new }
{
    let Ok((i, a)) = read_identifier(tree, st.script.names, st.at) else {
        return;
    };
    let Ok((p, b)) = number(tree, a) else {
        return;
    };
    let id = outcome_of(work, n);
    if id == 0 {
        let fault = Fault::UndefinedLabel {
            name: i.name,
            place: i.place,
        };
        st.wrote = write_fault(answer, st.wrote, 8, fault);
    } else {
        prepare(work, st, id, p);
        st.wrote = jump(answer, st.wrote, 4, resolved(i, id, 0), p);
    }
    st.at = b;
}

fn prepare(work: &mut [u32], st: &Walk, label: u32, place: u32)
    ensures { Prepares st.now label place work.old work.new }
{
    if work.len() < WORDS || label == 0 {
        return;
    }
    prepare_to_prune_at_goto(
        &mut work[SCOPES..SCOPES_END],
        (label - 1) as usize,
        place,
        st.tables.next_id,
    );
}

// A goto or a label: its kind, its name, its place.
fn jump(answer: &mut [u8], w: Wrote, kind: u32, i: Identifier, place: u32) -> Wrote
    ensures { Put w (num_b kind ++ (made_b i ++ num_b place)) answer.old result answer.new }
{
    w.then_number(answer, kind)
        .then_identifier(answer, i)
        .then_number(answer, place)
}

pub fn label(tree: &[u8], answer: &mut [u8], work: &mut [u32], st: &mut Walk, n: u32)
    ensures { (l : List ℕ) → Follows (Worded n work.old) tree.now read_label st.old answer.old l work.old st.new answer.new l work.new }
{
    let Ok((i, a)) = read_identifier(tree, st.script.names, st.at) else {
        return;
    };
    let Ok((p, b)) = number(tree, a) else {
        return;
    };
    let outcome = outcome_of(work, n);
    if 1024 < outcome {
        let fault = duplicate_label(i, label_place(work, outcome - 1024));
        st.wrote = write_fault(answer, st.wrote, 8, fault);
    } else {
        prune(work, st, outcome);
        st.wrote = jump(answer, st.wrote, 5, resolved(i, outcome, 1), p);
    }
    st.at = b;
}

fn label_place(work: &[u32], id: u32) -> u32
    ensures { LabelPlace id work.now result }
{
    match id {
        1..=1024 => word(work, SCOPES + LABEL_PLACE + (id - 1) as usize),
        _ => 0,
    }
}

fn prune(work: &mut [u32], st: &Walk, label: u32)
    ensures { Prunes st.now label work.old work.new }
{
    if work.len() < WORDS || label == 0 {
        return;
    }
    st.tables
        .scope
        .prune_at_label(&mut work[SCOPES..SCOPES_END], (label - 1) as usize);
}

// The name behind the value and the type; `before` is how far the answer was written before them.
pub fn declared(tree: &[u8], answer: &mut [u8], work: &mut [u32], st: &mut Walk, before: Wrote)
    ensures { Declares tree.now before st.old answer.old work.old st.new answer.new work.new }
{
    let Ok((i, a)) = read_identifier(tree, st.script.names, st.at) else {
        return;
    };
    match st.declare_variable(work, 4, i, st.at) {
        Ok(made) => st.wrote = st.wrote.then_identifier(answer, made),
        Err(fault) => st.wrote = write_fault(answer, before, 8, fault),
    }
    st.at = a;
}

pub fn body_id(tree: &[u8], answer: &mut [u8], st: &mut Walk)
    ensures { (l w : List ℕ) → Walks tree.now ident (onward name_body ident_b) st.old answer.old l w st.new answer.new l w }
{
    let Ok((i, a)) = read_identifier(tree, st.script.names, st.at) else {
        return;
    };
    let own = resolved(i, st.tables.next_id, 0);
    st.wrote = st.wrote.then_identifier(answer, own);
    st.at = a;
    st.create_anonymous_resolution_id();
}
