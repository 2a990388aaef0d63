// scoper.rs: `analyze`. The readers of an answered tree are in the crate `readers`.
#![tactic(auto)]

pub mod passes; // both passes over a tree that the reader let pass

ghost use Rattle.scoper.specs.Scoping.{Scopes};

use fields::refusal::Refusal;
use memory::lent::fill_from;
use passes::scope;

// The answer's length in bytes and the list's in records.
#[derive(Clone, Copy, Debug, PartialEq, Eq)]
pub struct Scoped {
    pub length: usize,
    pub records: usize,
}

// Both passes, from the bytes of a tree to the bytes of the scoped tree and its skip list. What was lent holds zeros behind the lengths told, and nothing else after a refusal; the work words hold zeros.
pub fn analyze(
    tree: &[u8],
    answer: &mut [u8],
    list: &mut [u32],
    work: &mut [u32],
) -> Result<Scoped, Refusal>
    ensures { Scopes tree.now answer.old list.old work.old result answer.new list.new work.new }
{
    let ended = scope(tree, answer, list, work);
    fill_from(work, 0, 0);
    match ended {
        Ok((bytes, words)) => {
            fill_from(answer, bytes, 0);
            fill_from(list, words, 0);
            Ok(Scoped {
                length: bytes,
                records: words / 2,
            })
        }
        Err(refusal) => {
            answer.fill(0);
            list.fill(0);
            Err(refusal)
        }
    }
}
