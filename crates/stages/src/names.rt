// The names as they came, and which of them is `main`.
ghost use Rattle.std.specs.Prelude.{◌++◌};
ghost use Rattle.penne.specs.Write.{num_b};
ghost use Rattle.answer.specs.Out.{Put};
ghost use Rattle.answer.specs.Parts.{span};
ghost use Rattle.stages.specs.Stages.{SaysNames, MainName};

use answer::wrote::Wrote;
use fields::number::number;
use name_table::{bytes_at, same};

// "The answer keeps the names."
pub fn then_names(tree: &[u8], answer: &mut [u8]) -> Wrote
    ensures { SaysNames tree.now answer.old result answer.new }
{
    let Ok((count, first)) = number(tree, 0) else {
        return Wrote::Bytes(0);
    };
    let mut w = Wrote::Bytes(0).then_number(answer, count);
    let mut at = first;
    for _ in 0..count {
        let Ok((length, from)) = number(tree, at) else {
            return w;
        };
        // Neither is so in a tree that was read before: it keeps the sum below from overflowing.
        if 64 < length || 65535 < from {
            return w;
        }
        at = from + length as usize;
        w = then_name(tree, answer, w, length, from, at);
    }
    w
}

fn then_name(tree: &[u8], answer: &mut [u8], w: Wrote, length: u32, from: usize, to: usize) -> Wrote
    ensures { Put w (num_b length ++ span tree.now from to) answer.old result answer.new }
{
    w.then_number(answer, length)
        .then_copy(answer, tree, from, to)
}

// "named by the four bytes of `main`": the number of that name, or the count of names where none is.
pub fn main_name(tree: &[u8]) -> u32
    ensures { MainName tree.now result }
{
    let Ok((count, first)) = number(tree, 0) else {
        return 0;
    };
    let mut at = first;
    for k in 0..count {
        let Ok((length, from)) = number(tree, at) else {
            return count;
        };
        // Neither is so in a tree that was read before: it keeps the sum below from overflowing.
        if 64 < length || 65535 < from {
            return count;
        }
        let width = length as usize;
        if same(bytes_at(tree, from, width), b"main") {
            return k;
        }
        at = from + width;
    }
    count
}
