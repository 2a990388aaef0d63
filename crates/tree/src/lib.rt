// The script tree, read and not kept: where each part ends, or the refusal that the table in docs/FORM.md gives.
#![tactic(auto)]

pub mod statement; // statements and bodies
pub mod declaration; // declarations
pub mod ends; // where declarations end, noted once
pub mod script; // names, declarations and depths together

ghost use Rattle.std.specs.Prelude.{◌≡◌};
ghost use Rattle.penne.specs.Read.{incoming, answered};
ghost use Rattle.tree.specs.Ends.{Remembers};
ghost use Rattle.tree.specs.Script.{verdict_of, refusal, IncomingLayout, AnsweredLayout};

use fields::refusal::{Reason, Refusal};
use script::{Layout, answered_depths, incoming_depths, lay_out};

// The tree as it comes in: every depth is 0.
#[tactic(auto, using(crate::proofs::Layouts::passes_out))]
pub fn incoming(tree: &[u8]) -> Result<(), Refusal>
    ensures { verdict_of result ≡ refusal incoming tree.now }
{
    incoming_layout(tree, &mut [0])?;
    Ok(())
}

// The same, with where its parts stand. It is noted where each declaration ends.
pub fn incoming_layout(tree: &[u8], ends: &mut [u32]) -> Result<Layout, Refusal>
    ensures { IncomingLayout tree.now result × Remembers tree.now ends.old result ends.new }
{
    if 65535 < tree.len() {
        return Err(Reason::TreeTooLong.at(0));
    }
    let layout = lay_out(tree, ends)?;
    let end = incoming_depths(tree, layout.count, layout.depths)?;
    if end < tree.len() {
        return Err(Reason::LeftOver.at(end));
    }
    Ok(layout)
}

// The tree as an answer has it: constants and structures may have any depth.
#[tactic(auto, using(crate::proofs::Layouts::passes_out))]
pub fn answered(tree: &[u8]) -> Result<(), Refusal>
    ensures { verdict_of result ≡ refusal answered tree.now }
{
    answered_layout(tree)?;
    Ok(())
}

// The same, with where its parts stand. Beside `incoming_layout`: it reads the depths otherwise, and notes no ends.
pub fn answered_layout(tree: &[u8]) -> Result<Layout, Refusal>
    ensures { AnsweredLayout tree.now result }
{
    if 65535 < tree.len() {
        return Err(Reason::TreeTooLong.at(0));
    }
    let layout = lay_out(tree, &mut [0])?;
    let end = answered_depths(tree, layout)?;
    if end < tree.len() {
        return Err(Reason::LeftOver.at(end));
    }
    Ok(layout)
}
