// Both passes over a tree that the reader let pass.
ghost use Rattle.std.specs.Prelude.{◌≡◌, length};
ghost use Rattle.penne.specs.Scoper.{scoped_answer};
ghost use Rattle.tree.specs.Ends.{Known};
ghost use Rattle.scoper.specs.Scoping.{Ending, Passes, fitted, roomed};

use answer::wrote::Wrote;
use fields::refusal::{Reason, Refusal};
use label_references::label_references;
use memory::layout::WORDS;
use tree::ends::END_WORDS;
use tree::incoming_layout;
use tree::script::Layout;
use variable_references::script::{Answered, variable_references};

// How many bytes of the answer and words of the list were written. Rows 1 and 2 come first, then those of the reader.
pub fn scope(
    tree: &[u8],
    answer: &mut [u8],
    list: &mut [u32],
    work: &mut [u32],
) -> Result<(usize, usize), Refusal>
    ensures { Ending answer.new list.new result (scoped_answer tree.now (length answer.old) (length list.old) (length work.old)) }
{
    if 65535 < tree.len() {
        return Err(Reason::TreeTooLong.at(0));
    }
    if work.len() < WORDS {
        return Err(Reason::WorkTooSmall.at(0));
    }
    let mut ends = [0u32; END_WORDS];
    let layout = incoming_layout(tree, &mut ends)?;
    pass(tree, answer, list, work, &ends, layout)
}

fn pass(
    tree: &[u8],
    answer: &mut [u8],
    list: &mut [u32],
    work: &mut [u32],
    ends: &[u32],
    layout: Layout,
) -> Result<(usize, usize), Refusal>
    ensures { Known tree.now layout.names ends.now → Passes tree.now layout answer.old list.old work.old result answer.new list.new }
{
    work.fill(0);
    label_references(tree, work, ends, layout);
    let answered = variable_references(tree, answer, list, work, ends, layout);
    if_room(answered)
}

// Rows 11 and 12.
fn if_room(answered: Answered) -> Result<(usize, usize), Refusal>
    ensures { result ≡ roomed answered.wrote answered.listed }
{
    let bytes = fitted(answered.wrote, Reason::AnswerFull)?;
    let words = fitted(answered.listed, Reason::ListFull)?;
    Ok((bytes, words))
}

// How much was written, if it fitted.
fn fitted(wrote: Wrote, full: Reason) -> Result<usize, Refusal>
    ensures { result ≡ fitted full wrote }
{
    match wrote {
        Wrote::Bytes(length) => Ok(length),
        Wrote::NoRoom => Err(full.at(0)),
    }
}
