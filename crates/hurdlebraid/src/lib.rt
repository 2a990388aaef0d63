// The C interface. A slice is a pointer and a count. `outcome` gets what fits of: the refusal's number (0: none), its place, then two values; what is left of it is zero.
#![tactic(auto)]

ghost use Rattle.std.specs.Prelude.{◌≡◌, length};
ghost use Rattle.penne.specs.Scoper.{get_container_depth, is_container, get_structure_name};
ghost use Rattle.fields.specs.Answers.{row_of};
ghost use Rattle.hurdlebraid.specs.Telling.{told_words, word_of, Analyzes, depth_and_kind, name_told, told_by};

use fields::refusal::Refusal;
use readers::{Part, get_container_depth, structure_name_at};
use scoper::{Scoped, analyze};

// The values: the answer's length in bytes, the list's in records.
#[tactic(auto, unfolding(scoper::specs::Scoping::outcome_of, crate::specs::Telling::scoped_told))]
#[unsafe(no_mangle)]
pub extern "C" fn hurdlebraid_analyze(
    tree: &[u8],
    answer: &mut [u8],
    list: &mut [u32],
    work: &mut [u32],
    outcome: &mut [u64],
)
    ensures { Analyzes tree.now answer.old list.old work.old outcome.old answer.new list.new work.new outcome.new }
{
    let told = match analyze(tree, answer, list, work) {
        Ok(Scoped { length, records }) => Told::values(length as u64, records as u64),
        Err(refusal) => Told::refused(refusal),
    };
    tell(outcome, told);
}

// The values: the depth (`max` where there is none), and whether it is a container (0 or 1). No depth is as large as the maximum asked with.
#[tactic(auto, using(crate::proofs::Depths::tells_depth_and_kind), unfolding(crate::proofs::Depths::depth_told))]
#[unsafe(no_mangle)]
pub extern "C" fn hurdlebraid_container_depth(
    tree: &[u8],
    declaration: u32,
    max: u32,
    outcome: &mut [u64],
)
    ensures { outcome.new ≡ told_words (length outcome.old) (depth_and_kind (get_container_depth tree.now declaration max) (is_container tree.now declaration)) }
{
    let told = match get_container_depth(tree, declaration, u32::MAX) {
        Ok(depth) if depth < u32::MAX => Told::values(u64::from(depth), 1),
        Ok(_) => Told::values(u64::from(max), 0),
        Err(refusal) => Told::refused(refusal),
    };
    tell(outcome, told);
}

// The values: where the name begins in the tree, and its length; both 0 where the declaration is no structure.
#[tactic(auto, unfolding(crate::specs::Telling::name_told))]
#[unsafe(no_mangle)]
pub extern "C" fn hurdlebraid_structure_name(tree: &[u8], declaration: u32, outcome: &mut [u64])
    ensures { outcome.new ≡ told_words (length outcome.old) (name_told (get_structure_name tree.now declaration)) }
{
    let told = match structure_name_at(tree, declaration) {
        Ok(Part { start, length }) => Told::values(start as u64, length as u64),
        Err(refusal) => Told::refused(refusal),
    };
    tell(outcome, told);
}

// What a call tells: a refusal's number (0: none) and place, then two values.
#[derive(Clone, Copy)]
struct Told {
    number: u64,
    place: u64,
    first: u64,
    second: u64,
}

impl Told {
    fn values(first: u64, second: u64) -> Told
        ensures { result ≡ record { number = 0; place = 0; first = first; second = second } }
    {
        Told {
            number: 0,
            place: 0,
            first,
            second,
        }
    }

    fn refused(refusal: Refusal) -> Told
        ensures { result ≡ record { number = row_of refusal.reason; place = refusal.place; first = 0; second = 0 } }
    {
        Told {
            number: u64::from(refusal.reason.number()),
            place: refusal.place as u64,
            first: 0,
            second: 0,
        }
    }

    // One of the words, 0 behind the last.
    fn word(self, i: usize) -> u64
        ensures { result ≡ word_of (told_by self) i }
    {
        match i {
            0 => self.number,
            1 => self.place,
            2 => self.first,
            3 => self.second,
            _ => 0,
        }
    }
}

// Word by word, so that the archive calls no `memcpy`.
fn tell(outcome: &mut [u64], told: Told)
    ensures { outcome.new ≡ told_words (length outcome.old) (told_by told) }
{
    for i in 0..outcome.len() {
        outcome[i] = told.word(i);
    }
}
