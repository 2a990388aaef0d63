// Identifiers and poisons, as they are read and written. The writers are functions, as in `fault`: `Wrote` is another crate's type.
ghost use Rattle.std.specs.Prelude.{ℕ, List, ◌++◌};
ghost use Rattle.penne.specs.Read.{read_poison};
ghost use Rattle.penne.specs.Write.{num_b};
ghost use Rattle.answer.specs.Out.{Put};
ghost use Rattle.walk.specs.Walking.{made_b, fault_b, say_poison, Walks};

use super::fault::{Fault, then_fault};
use super::state::Walk;
use answer::wrote::Wrote;
use fields::field::Identifier;
use fields::poison::poison;

// "Maybe X" that is X: an identifier.
pub fn write_ok(answer: &mut [u8], w: Wrote, i: Identifier) -> Wrote
    ensures { Put w (num_b 0 ++ made_b i) answer.old result answer.new }
{
    w.then_number(answer, 0).then_identifier(answer, i)
}

// A kind or tag, then a poison: what stands in the place of a part that is dropped.
pub fn write_fault(answer: &mut [u8], w: Wrote, kind: u32, fault: Fault) -> Wrote
    ensures { Put w (num_b kind ++ fault_b fault) answer.old result answer.new }
{
    let tagged = w.then_number(answer, kind);
    then_fault(answer, tagged, fault)
}

// A kind or tag, then the poison that came in.
pub fn copy_poison(tree: &[u8], answer: &mut [u8], st: &mut Walk, kind: u32)
    ensures { (l w : List ℕ) → Walks tree.now read_poison (say_poison kind) st.old answer.old l w st.new answer.new l w }
{
    let Ok(next) = poison(tree, st.script.names, st.at) else {
        return;
    };
    st.wrote = st.wrote.then_head(answer, kind, tree, st.at, next);
    st.at = next;
}
