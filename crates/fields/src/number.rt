// Numbers: groups of seven bits, low group first.
ghost use Rattle.std.specs.Prelude.{◌+◌, ◌*◌, ◌^◌, ◌<◌, ◌≤◌};
ghost use Rattle.penne.specs.Reader.{num, below, last_group};
ghost use Rattle.fields.specs.Answers.{Last, Gives, Skips};

use super::refusal::{Reason, Refusal};

// Most numbers have one group, so that one is looked at first.
#[tactic(auto, using(crate::proofs::Numbers::number_out, crate::proofs::Numbers::number_one))]
pub fn number(tree: &[u8], at: usize) -> Result<(u32, usize), Refusal>
    ensures { Gives num tree.now at result }
{
    match tree.get(at) {
        None => Err(Reason::CutOff.at(at)),
        Some(&first) if first < 128 => Ok((u32::from(first), at + 1)),
        Some(_) => groups(tree, at),
    }
}

// A number passed by.
#[tactic(auto, unfolding(crate::specs::Answers::forget))]
pub fn past_number(tree: &[u8], at: usize) -> Result<usize, Refusal>
    ensures { Skips num tree.now at result }
{
    let (_, next) = number(tree, at)?;
    Ok(next)
}

// A number of any width.
fn groups(tree: &[u8], at: usize) -> Result<(u32, usize), Refusal>
    ensures { Gives num tree.now at result }
{
    let mut here = at;
    let mut weight = 1u64;
    let mut value = 0u64;
    for _ in 0..5u32 {
        let byte = *tree.get(here).ok_or(Reason::CutOff.at(at))?;
        let group = u64::from(byte);
        here += 1;
        if group < 128 {
            return last_group(group, weight, value, at, here);
        }
        value += group % 128 * weight;
        weight *= 128;
    }
    Err(Reason::BadNumber.at(at))
}

// The last group of the number that begins at `at`; the groups before it come to `value`.
#[tactic(auto, unfolding(penne::specs::Reader::last_group, penne::specs::Reader::moved))]
fn last_group(
    group: u64,
    weight: u64,
    value: u64,
    at: usize,
    next: usize,
) -> Result<(u32, usize), Refusal>
    requires { (group < 128) × (weight ≤ 2 ^ 35) × (value < 2 ^ 35) }
    ensures { Last group weight value at next result }
{
    let whole = value + group * weight;
    if 1 << 32 <= whole || (group == 0 && weight != 1) {
        return Err(Reason::BadNumber.at(at));
    }
    Ok((whole as u32, next))
}

#[tactic(auto, unfolding(penne::specs::Reader::below, penne::specs::Reader::such))]
pub fn below(tree: &[u8], limit: u32, at: usize) -> Result<(u32, usize), Refusal>
    ensures { Gives (below limit) tree.now at result }
{
    let (value, next) = number(tree, at)?;
    if value < limit {
        Ok((value, next))
    } else {
        Err(Reason::OutOfRange.at(at))
    }
}
