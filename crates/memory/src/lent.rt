// What is left of lent memory.
ghost use Rattle.std.specs.Prelude.{◌≡◌, ◌-◌, ◌++◌, length, take, replicate};

// What stands before `from` stays, the rest becomes `v`.
#[tactic(auto, using(crate::proofs::Filling::filled_more))]
pub fn fill_from<T: Copy>(s: &mut [T], from: usize, v: T)
    ensures { s.new ≡ take from s.old ++ replicate (length s.old - from) v }
{
    for i in from..s.len() {
        s[i] = v;
    }
}
