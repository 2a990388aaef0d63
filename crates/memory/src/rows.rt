// Sets of numbers below 128: a row of four words for each, a bit for each number.
ghost use Rattle.std.specs.Prelude.{◌≡◌};
ghost use Rattle.memory.specs.Rows.{member, vacant, Adds, Joins, Removes, Mixes};

use super::words::{set_word, word};

#[tactic(auto, using(crate::proofs::Bits::has_laws))]
pub fn has(w: &[u32], row: usize, bit: usize) -> bool
    ensures { result ≡ member w.now row bit }
{
    if 128 <= bit || w.len() <= row {
        return false;
    }
    let x = word(w, row * 4 + bit / 32);
    (x >> (bit % 32)) % 2 == 1
}

pub fn is_empty(w: &[u32], row: usize) -> bool
    ensures { result ≡ vacant w.now row }
{
    if w.len() <= row {
        return true;
    }
    let at = row * 4;
    for q in 0..4 {
        if 0 < word(w, at + q) {
            return false;
        }
    }
    true
}

#[tactic(auto, using(crate::proofs::Bits::adds_high, crate::proofs::Bits::adds_past))]
pub fn add(w: &mut [u32], row: usize, bit: usize)
    ensures { Adds row bit w.old w.new }
{
    if 128 <= bit || w.len() <= row {
        return;
    }
    let at = row * 4 + bit / 32;
    let x = word(w, at);
    set_word(w, at, x | (1 << (bit % 32)));
}

// `to` becomes the union of both.
pub fn join(w: &mut [u32], from: usize, to: usize)
    ensures { Joins from to w.old w.new }
{
    mix(w, from, to, |x, y| x | y);
}

// `from` loses what is in `what`.
pub fn remove(w: &mut [u32], from: usize, what: usize)
    ensures { Removes what from w.old w.new }
{
    mix(w, what, from, |x, y| (x | y) ^ y); // what y has is first added, then toggled
}

// Each word of `to` becomes f of itself and of the word in `from`.
fn mix<F: Fn(u32, u32) -> u32>(w: &mut [u32], from: usize, to: usize, f: F)
    requires { F.IsAlwaysCallable f }
    ensures { Mixes (F.post f) from to w.old w.new }
{
    if w.len() <= from || w.len() <= to {
        return;
    }
    let a = from * 4;
    let b = to * 4;
    for q in 0..4 {
        let y = word(w, a + q);
        let x = word(w, b + q);
        set_word(w, b + q, f(x, y));
    }
}
