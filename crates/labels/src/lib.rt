// Labels in scope, the outermost scope first, each in the order declared; and the visit, last statement first.
// A label's row is its id less 1. What is decided for a statement, by its number: for a goto the id of its label, 0 where there is none; for a label its id, or 1,024 + the id of the earlier label of its name. All this is kept in words of the work memory, where 0 stands for none.
#![tactic(auto)]

ghost use Rattle.std.specs.Prelude.{ℕ, ◌≤◌, length};
ghost use Rattle.labels.specs.Visit.{Visits, VisitsKind, VisitsList, Finds, Bears, Sets, LabelWord, Declares, Shows};

use memory::layout::{
    LABEL_NAME, LABEL_PLACE, LABEL_STACK, LABEL_STACK_END, OUTCOMES, SCOPES, SHAPE_INSIDE,
    SHAPE_KIND, SHAPE_PREVIOUS, SHAPES,
};
use memory::words::{set_word, word};

// How many labels are in scope, and the next label's id.
#[derive(Clone, Copy)]
pub struct Labels {
    pub count: usize,
    pub next: u32,
}

// The list whose last statement has the number `last` less 1. A `while`: it goes back by links, so that there is no count.
#[cycle(labels)]
pub fn visit_list(work: &mut [u32], mut last: u32, mut labels: Labels, left: u32) -> Labels
    ensures { VisitsList left last labels work.old result work.new }
{
    while let Some(k) = last.checked_sub(1) {
        labels = visit(work, k, labels, left);
        let previous = shown(work, SHAPES + SHAPE_PREVIOUS, k);
        if last <= previous {
            return labels;
        }
        last = previous;
    }
    labels
}

#[cycle(labels)]
fn visit(work: &mut [u32], k: u32, labels: Labels, left: u32) -> Labels
    ensures { Visits left k labels work.old result work.new }
{
    if left == 0 {
        return labels;
    }
    match shown(work, SHAPES + SHAPE_KIND, k) {
        4 => visit_goto(work, k, labels),
        5 => visit_label(work, k, labels),
        6 => visit_branches(work, k, labels, left - 1),
        7 => visit_block(work, k, labels, left - 1),
        _ => labels,
    }
}

// "but an If's then branch before its else"
#[cycle(labels)]
fn visit_branches(work: &mut [u32], k: u32, labels: Labels, left: u32) -> Labels
    ensures { VisitsKind 6 left k labels work.old result work.new }
{
    if 2048 <= k {
        return labels;
    }
    let after = visit(work, k + 1, labels, left);
    match shown(work, SHAPES + SHAPE_INSIDE, k).checked_sub(1) {
        Some(other) => visit(work, other, after, left),
        None => after,
    }
}

// The labels of a block go with it, the ids go on.
#[cycle(labels)]
fn visit_block(work: &mut [u32], k: u32, labels: Labels, left: u32) -> Labels
    ensures { VisitsKind 7 left k labels work.old result work.new }
{
    let last = shown(work, SHAPES + SHAPE_INSIDE, k);
    let after = visit_list(work, last, labels, left);
    Labels {
        next: after.next,
        ..labels
    }
}

fn visit_goto(work: &mut [u32], k: u32, labels: Labels) -> Labels
    ensures { (left : ℕ) → VisitsKind 4 left k labels work.old result work.new }
{
    let name = shown(work, SHAPES + SHAPE_INSIDE, k);
    let found = find_label(work, labels.count, name);
    set_outcome(work, k, found.unwrap_or(0));
    labels
}

fn visit_label(work: &mut [u32], k: u32, labels: Labels) -> Labels
    ensures { (left : ℕ) → VisitsKind 5 left k labels work.old result work.new }
{
    let name = shown(work, SHAPES + SHAPE_INSIDE, k);
    let place = shown(work, OUTCOMES, k);
    let earlier = find_label(work, labels.count, name);
    if 2047 < k {
        return labels;
    }
    set_outcome(work, k, label_outcome(earlier, labels.next));
    declare_label(work, name, place, labels)
}

fn label_outcome(earlier: Option<u32>, id: u32) -> u32
    ensures { LabelWord earlier id result }
{
    earlier.map_or(id, |earlier| earlier.saturating_add(1024))
}

// "A duplicate is poisoned where visited second, yet takes an id and stays declared."
fn declare_label(work: &mut [u32], name: u32, place: u32, labels: Labels) -> Labels
    ensures { Declares name place labels work.old result work.new }
{
    let Labels { count, next } = labels;
    if 1024 <= count || next == 0 || 1024 < next {
        return labels;
    }
    let row = (next - 1) as usize;
    set_word(work, SCOPES + LABEL_NAME + row, name);
    set_word(work, SCOPES + LABEL_PLACE + row, place);
    set_word(work, LABEL_STACK + count, next);
    Labels {
        count: count + 1,
        next: next + 1,
    }
}

// The id of the outermost label of that name, the first declared.
fn find_label(work: &[u32], count: usize, name: u32) -> Option<u32>
    ensures { Finds work.now 0 count name result }
{
    if work.len() < LABEL_STACK_END || 1024 < count {
        return None;
    }
    // No `find`: the promise goes along the labels one by one, and so does its proof.
    for i in 0..count {
        let id = work[LABEL_STACK + i];
        if named(work, id, name) {
            return Some(id);
        }
    }
    None
}

// Has the label of that id the name?
#[tactic(auto, using(crate::proofs::Finding::bears_none, crate::proofs::Finding::bears_own))]
fn named(work: &[u32], id: u32, name: u32) -> bool
    requires { 3072 ≤ length work.now }
    ensures { Bears work.now id name result }
{
    if 1024 < id {
        return false;
    }
    work[SCOPES + LABEL_NAME - 1 + id as usize] == name
}

#[tactic(auto, using(crate::proofs::Finding::sets_past, crate::proofs::Finding::sets_in))]
fn set_outcome(work: &mut [u32], k: u32, outcome: u32)
    ensures { Sets k outcome work.old work.new }
{
    if k < 2048 {
        set_word(work, OUTCOMES + k as usize, outcome);
    }
}

// What is decided for the statement of number k.
pub fn outcome_of(work: &[u32], k: u32) -> u32
    ensures { Shows work.now 0 k result }
{
    shown(work, OUTCOMES, k)
}

// A statement's word in the column that begins at `from`.
pub fn shown(work: &[u32], from: usize, k: u32) -> u32
    ensures { Shows work.now from k result }
{
    if 2048 <= k || 12288 < from {
        return 0;
    }
    word(work, from + k as usize)
}
