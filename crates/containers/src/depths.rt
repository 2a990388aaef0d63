// determine_container_depths: rounds over the rows. A round at depth d resolves all that contain nothing any more, which it marks in the spare row, and takes them out of all others.
ghost use Rattle.containers.specs.Depths.{Clears, Resolves, Marks, MarksAll, NoneMarked, IsMarked, ReleasesRows, Releases, DeepensMarked, DeepensIfMarked, PoisonsRest, PoisonsRow, Round, Rounds, Determines, TellsDepth};

use memory::layout::{CONTAINED, CONTAINED_END, CONTAINER_DEPTH, CONTAINERS_WORDS, SPARE};
use memory::rows::{add, has, is_empty, remove};
use memory::words::{set_word, word};

// After the rounds, what has no depth is poisoned.
pub fn determine_container_depths(table: &mut [u32], count: usize)
    ensures { Determines count table.old table.new }
{
    rounds(table, count);
    poison_the_rest(table, count);
}

// As many rounds as there are containers, at most.
fn rounds(table: &mut [u32], count: usize)
    ensures { Rounds count table.old table.new }
{
    for d in 0..count {
        if !round(table, count, d) {
            return;
        }
    }
}

// Does the round resolve any?
fn round(table: &mut [u32], count: usize, d: usize) -> bool
    ensures { Round count d table.old result table.new }
{
    clear_marks(table);
    mark_all(table, count);
    if none_marked(table) {
        return false;
    }
    deepen_all(table, count, d);
    release(table, count);
    true
}

#[tactic(auto, using(crate::proofs::Marking::clears_short, crate::proofs::Marking::clears_is))]
fn clear_marks(table: &mut [u32])
    ensures { Clears table.old table.new }
{
    if table.len() < CONTAINERS_WORDS {
        return;
    }
    remove(&mut table[CONTAINED..CONTAINED_END], SPARE, SPARE);
}

fn mark_all(table: &mut [u32], count: usize)
    ensures { MarksAll count table.old table.new }
{
    for row in 0..count {
        mark(table, row);
    }
}

// Is it one that the round resolves?
#[tactic(auto, using(crate::proofs::Marking::mark_laws))]
fn mark(table: &mut [u32], row: usize)
    ensures { Marks row table.old table.new }
{
    if !resolves(table, row) || table.len() < CONTAINERS_WORDS {
        return;
    }
    add(&mut table[CONTAINED..CONTAINED_END], SPARE, row);
}

#[tactic(auto, using(crate::proofs::Marking::resolves_laws))]
fn resolves(table: &[u32], row: usize) -> bool
    ensures { Resolves table.now row result }
{
    if table.len() < CONTAINERS_WORDS || 128 <= row {
        return false;
    }
    word(table, CONTAINER_DEPTH + row) == 0 && is_empty(&table[CONTAINED..CONTAINED_END], row)
}

#[tactic(auto, using(crate::proofs::Marking::none_short, crate::proofs::Marking::none_is))]
fn none_marked(table: &[u32]) -> bool
    ensures { NoneMarked table.now result }
{
    table.len() < CONTAINERS_WORDS || is_empty(&table[CONTAINED..CONTAINED_END], SPARE)
}

// What is marked has depth d.
fn deepen_all(table: &mut [u32], count: usize, d: usize)
    ensures { DeepensMarked count d table.old table.new }
{
    for row in 0..count {
        deepen(table, row, d);
    }
}

#[tactic(auto, using(crate::proofs::Deepening::deepen_laws))]
fn deepen(table: &mut [u32], row: usize, d: usize)
    ensures { DeepensIfMarked row d table.old table.new }
{
    if 128 <= row || 128 <= d || !is_marked(table, row) {
        return;
    }
    set_word(table, CONTAINER_DEPTH + row, (d + 2) as u32);
}

#[tactic(auto, using(crate::proofs::Marking::marked_short, crate::proofs::Marking::marked_is))]
fn is_marked(table: &[u32], row: usize) -> bool
    ensures { IsMarked table.now row result }
{
    CONTAINERS_WORDS <= table.len() && has(&table[CONTAINED..CONTAINED_END], SPARE, row)
}

// Nothing contains what is marked any more.
fn release(table: &mut [u32], count: usize)
    ensures { Releases count table.old table.new }
{
    if table.len() < CONTAINERS_WORDS {
        return;
    }
    release_rows(&mut table[CONTAINED..CONTAINED_END], count);
}

#[tactic(auto, using(crate::proofs::Marking::release_rows_laws))]
fn release_rows(rows: &mut [u32], count: usize)
    ensures { ReleasesRows count rows.old rows.new }
{
    for row in 0..count {
        remove(rows, row, SPARE);
    }
}

fn poison_the_rest(table: &mut [u32], count: usize)
    ensures { PoisonsRest count table.old table.new }
{
    for row in 0..count {
        or_poisoned(table, row);
    }
}

#[tactic(auto, using(crate::proofs::Deepening::or_poisoned_laws))]
fn or_poisoned(table: &mut [u32], row: usize)
    ensures { PoisonsRow row table.old table.new }
{
    if 128 <= row || word(table, CONTAINER_DEPTH + row) != 0 {
        return;
    }
    set_word(table, CONTAINER_DEPTH + row, 1);
}

// A depth as the tree numbers it: 1 poisoned, 2 + d.
#[tactic(auto, using(crate::proofs::Rounding::depth_high, crate::proofs::Rounding::depth_is))]
pub fn container_depth(table: &[u32], row: usize) -> u32
    ensures { TellsDepth row table.now result }
{
    if 128 <= row {
        return 0;
    }
    word(table, CONTAINER_DEPTH + row)
}
