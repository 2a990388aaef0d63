// Where declarations end, noted by the first reading, so that the passes need not read a declaration again to find its end.
// A row has ten words: where a declaration begins, what is counted before it, what is counted behind it, and where it ends, which is 0 where nothing is noted. A row is believed only where it tells of the very declaration that is asked for: so which row is asked for, and how many there are, matters to the speed alone.
ghost use Rattle.std.specs.Prelude.{◌≡◌, ◌+◌};
ghost use Rattle.penne.specs.Read.{read_decl};
ghost use Rattle.fields.specs.Answers.{Passes};
ghost use Rattle.tree.specs.Ends.{counts_in, Known, Tells, Writes, Notes};

use super::declaration::declaration;
use fields::counts::Counts;
use fields::refusal::Refusal;
use memory::words::{set_word, word};

// 384 rows: as many as there can be containers and functions.
pub const END_WORDS: usize = 3840;

// Where the declaration at `at` ends, as that row tells, or else read.
pub fn past(
    tree: &[u8],
    ends: &[u32],
    names: u32,
    counts: Counts,
    at: usize,
    row: u32,
) -> Result<(usize, Counts), Refusal>
    ensures { Known tree.now names ends.now → Passes read_decl tree.now names counts at result }
{
    let i = row % 384 * 10;
    if tells(ends, i, counts, at) {
        let next = word(ends, i as usize + 9);
        return Ok((next as usize, counts_in(ends, i, 5)));
    }
    declaration(tree, names, counts, at)
}

// Does the row that begins at word i tell of the declaration at `at`?
fn tells(ends: &[u32], i: u32, counts: Counts, at: usize) -> bool
    ensures { Tells ends.now i counts at result }
{
    let first = i as usize;
    word(ends, first + 9) != 0
        && word(ends, first) as usize == at
        && counts_in(ends, i, 1) == counts
}

// The four words of a row from its word k on.
fn counts_in(ends: &[u32], i: u32, k: u32) -> Counts
    ensures { result ≡ counts_in ends.now (i + k) }
{
    let first = i as usize + k as usize;
    Counts {
        containers: word(ends, first),
        functions: word(ends, first + 1),
        entries: word(ends, first + 2),
        statements: word(ends, first + 3),
    }
}

fn set_counts(ends: &mut [u32], i: u32, k: u32, counts: Counts)
    ensures { Writes ends.old (i + k) counts ends.new }
{
    let first = i as usize + k as usize;
    set_word(ends, first, counts.containers);
    set_word(ends, first + 1, counts.functions);
    set_word(ends, first + 2, counts.entries);
    set_word(ends, first + 3, counts.statements);
}

// The declaration at `at` ends at `next`: noted in that row, if the numbers fit. The end is the row's last word, so that a row which does not fit into what was lent tells nothing.
pub fn note(ends: &mut [u32], row: u32, counts: Counts, at: usize, next: usize, more: Counts)
    ensures { Notes counts at next more ends.old ends.new }
{
    let (Ok(begin), Ok(end)) = (u32::try_from(at), u32::try_from(next)) else {
        return;
    };
    let i = row % 384 * 10;
    let first = i as usize;
    set_word(ends, first, begin);
    set_counts(ends, i, 1, counts);
    set_counts(ends, i, 5, more);
    set_word(ends, first + 9, end);
}
