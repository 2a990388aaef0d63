// Words of 32 bits, and counters.
ghost use Rattle.std.specs.Prelude.{◌≡◌, ◌+◌, min, get_or, set};

pub fn word(w: &[u32], i: usize) -> u32
    ensures { result ≡ get_or w.now i 0 }
{
    w.get(i).copied().unwrap_or(0)
}

#[tactic(auto, using(crate::proofs::Filling::set_past))]
pub fn set_word(w: &mut [u32], i: usize, v: u32)
    ensures { w.new ≡ set w.old i v }
{
    if i < w.len() {
        w[i] = v;
    }
}

// The number after n, or the last one.
pub fn next(n: u32) -> u32
    ensures { result ≡ min (n + 1) 4294967295 }
{
    n.saturating_add(1)
}
