// The first pass: label_references.rs. It decides for every goto and label of the tree what becomes of it; the second pass writes it down.
//
// Statements are visited last to first, against the order in which they are read. So a function's statements are first laid out in a table, each with the one before it and the last one inside it.
#![tactic(auto)]

pub mod shape; // the table of statements

ghost use Rattle.penne.specs.Reader.{many};
ghost use Rattle.penne.specs.Read.{read_decl};
ghost use Rattle.fields.specs.Answers.{cursor, counts_of};
ghost use Rattle.tree.specs.Ends.{Known};
ghost use Rattle.label_references.specs.Pass.{uncounted, Decides, DecidesAll, Pass};

use fields::counts::Counts;
use fields::refusal::Refusal;
use labels::{Labels, visit_list};
use memory::layout::{LABEL_STACK_END, SHAPES, WORDS};
use shape::function_body;
use tree::ends::past;
use tree::script::Layout;

// All functions in their order; label ids count from 1 over all of them.
pub fn label_references(tree: &[u8], work: &mut [u32], ends: &[u32], layout: Layout)
    ensures { Known tree.now layout.names ends.now → Pass tree.now layout work.old work.new }
{
    if work.len() < WORDS {
        return;
    }
    // The reader let this tree pass: nothing of it is refused here.
    let _ = declarations(tree, work, ends, layout);
    work[SHAPES..LABEL_STACK_END].fill(0);
}

fn declarations(tree: &[u8], work: &mut [u32], ends: &[u32], layout: Layout) -> Result<(), Refusal>
    ensures { Known tree.now layout.names ends.now → DecidesAll (many read_decl layout.count tree.now (cursor layout.first layout.names (counts_of uncounted))) uncounted 1 work.old work.new }
{
    let names = layout.names;
    let mut at = layout.first;
    let mut counts = Counts::NONE;
    let mut next_id = 1;
    for row in (0..layout.count).rev() {
        next_id = function_labels(tree, work, names, at, counts, next_id);
        (at, counts) = past(tree, ends, names, counts, at, row + 1)?;
    }
    Ok(())
}

// The next label's id behind a declaration, which has labels if it is a function whose body is no poison; `counts` is counted before it.
#[tactic(auto, using(crate::proofs::Deciding::function_labels_laws))]
fn function_labels(
    tree: &[u8],
    work: &mut [u32],
    names: u32,
    at: usize,
    counts: Counts,
    next_id: u32,
) -> u32
    ensures { Decides (read_decl tree.now (cursor at names (counts_of counts))) counts.statements next_id work.old result work.new }
{
    let Some(last) = function_body(tree, work, names, at, counts) else {
        return next_id;
    };
    let none = Labels {
        count: 0,
        next: next_id,
    };
    visit_list(work, last, none, 63).next
}
