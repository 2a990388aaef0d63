// Numbers in their shortest form.
ghost use mathlib.Core.List.{flat_map};
ghost use Rattle.std.specs.Prelude.{take};
ghost use Rattle.penne.specs.Write.{num_b};
ghost use Rattle.answer.specs.Out.{Front, Put};

use super::wrote::Wrote;

// To the front of a part.
pub fn put_number(out: &mut [u8], value: u32) -> Wrote
    ensures { Front (num_b value) out.old result out.new }
{
    if out.len() < 1 {
        return Wrote::NoRoom;
    }
    if value < 128 {
        out[0] = value as u8;
        return Wrote::Bytes(1);
    }
    out[0] = (128 + value % 128) as u8;
    match put_number(&mut out[1..], value / 128) {
        Wrote::Bytes(n) => Wrote::Bytes(n + 1),
        Wrote::NoRoom => Wrote::NoRoom,
    }
}

impl Wrote {
    // After what is counted: the part that begins there is lent.
    pub fn then_number(self, out: &mut [u8], value: u32) -> Wrote
        ensures { Put self (num_b value) out.old result out.new }
    {
        match self {
            Wrote::NoRoom => Wrote::NoRoom,
            Wrote::Bytes(n) => {
                if out.len() < n {
                    return Wrote::NoRoom;
                }
                match put_number(&mut out[n..], value) {
                    Wrote::Bytes(m) => Wrote::Bytes(n + m),
                    Wrote::NoRoom => Wrote::NoRoom,
                }
            }
        }
    }

    // The first numbers of a few, one after another. The count stands beside them: a poison's row says how many of a fixed few are written.
    pub fn then_each(self, out: &mut [u8], values: &[u32], count: usize) -> Wrote
        ensures { Put self (flat_map num_b (take count values.now)) out.old result out.new }
    {
        let mut c = self.settled(out);
        for i in 0..count.min(values.len()) {
            c = c.then_number(out, values[i]);
        }
        c
    }
}
