// `function_list` of variable_references.rs. A table is the part FUNCTIONS of the work words.
ghost use Rattle.std.specs.Prelude.{◌≡◌};
ghost use Rattle.containers.specs.Functions.{PushesFunction, TellsFunction, function_is, FindsFunction};

use super::containers::Declared;
use memory::layout::{FUNCTION_ID, FUNCTION_NAME, FUNCTION_PLACE};
use memory::words::word;

#[tactic(auto, using(crate::proofs::Pushing::function_pushes_none, crate::proofs::Pushing::function_pushes))]
pub fn push_function(table: &mut [u32], row: usize, declared: Declared)
    ensures { PushesFunction row declared table.old table.new }
{
    if 256 <= row {
        return;
    }
    declared.write(
        table,
        FUNCTION_NAME + row,
        FUNCTION_PLACE + row,
        FUNCTION_ID + row,
    );
}

#[tactic(auto, using(crate::proofs::Pushing::function_tells_none, crate::proofs::Pushing::function_tells))]
pub fn function(table: &[u32], row: usize) -> Declared
    ensures { TellsFunction row table.now result }
{
    if 256 <= row {
        return Declared::NONE;
    }
    Declared::read(
        table,
        FUNCTION_NAME + row,
        FUNCTION_PLACE + row,
        FUNCTION_ID + row,
    )
}

// The first of that name among so many.
pub fn find_function(table: &[u32], count: usize, name: u32) -> Option<usize>
    ensures { FindsFunction count name table.now result }
{
    (0..count).find(|&row| is_named(table, row, name))
}

#[tactic(auto, using(crate::proofs::Finding::function_high, crate::proofs::Finding::function_here))]
fn is_named(table: &[u32], row: usize, name: u32) -> bool
    ensures { result ≡ function_is table.now name row }
{
    row < 256 && word(table, FUNCTION_NAME + row) == name
}
