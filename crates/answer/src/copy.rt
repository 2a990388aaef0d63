// Bytes as they are, and parts of the tree that came in.
ghost use Rattle.answer.specs.Out.{Front, Put};
ghost use Rattle.answer.specs.Parts.{span, renumbered};
ghost use Rattle.std.specs.Prelude.{◌++◌};
ghost use Rattle.penne.specs.Write.{num_b};

use super::wrote::Wrote;
use fields::number::number;

// To the front of a part.
pub fn put_bytes(out: &mut [u8], xs: &[u8]) -> Wrote
    ensures { Front xs.now out.old result out.new }
{
    for n in 0..xs.len() {
        if out.len() <= n {
            return Wrote::NoRoom;
        }
        out[n] = xs[n];
    }
    Wrote::Bytes(xs.len())
}

impl Wrote {
    // After what is counted: the part that begins there is lent.
    pub fn then_bytes(self, out: &mut [u8], xs: &[u8]) -> Wrote
        ensures { Put self xs.now out.old result out.new }
    {
        match self {
            Wrote::NoRoom => Wrote::NoRoom,
            Wrote::Bytes(n) => {
                if out.len() < n {
                    return Wrote::NoRoom;
                }
                match put_bytes(&mut out[n..], xs) {
                    Wrote::Bytes(m) => Wrote::Bytes(n + m),
                    Wrote::NoRoom => Wrote::NoRoom,
                }
            }
        }
    }

    // The tree's bytes from `from` to `to`, as far as it has them.
    pub fn then_copy(self, out: &mut [u8], tree: &[u8], from: usize, to: usize) -> Wrote
        ensures { Put self (span tree.now from to) out.old result out.new }
    {
        if to <= from {
            return self.settled(out);
        }
        if tree.len() <= from {
            return self.settled(out);
        }
        if tree.len() < to {
            return self.then_bytes(out, &tree[from..]);
        }
        self.then_bytes(out, &tree[from..to])
    }

    // The tree's numbers from `from` to `to`, as far as they can be read. A `while`: a step is as long as the number that is read.
    pub fn then_numbers(self, out: &mut [u8], tree: &[u8], from: usize, to: usize) -> Wrote
        ensures { Put self (renumbered tree.now from to) out.old result out.new }
    {
        let mut c = self.settled(out);
        let mut at = from;
        while at < to {
            let Ok((value, next)) = number(tree, at) else {
                return c;
            };
            c = c.then_number(out, value);
            at = next;
        }
        c
    }

    // A kind, and the tree's numbers behind it.
    pub fn then_head(self, out: &mut [u8], kind: u32, tree: &[u8], from: usize, to: usize) -> Wrote
        ensures { Put self (num_b kind ++ renumbered tree.now from to) out.old result out.new }
    {
        self.then_number(out, kind)
            .then_numbers(out, tree, from, to)
    }
}
