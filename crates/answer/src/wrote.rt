// How far the answer is written.
ghost use Rattle.std.specs.Prelude.{[]};
ghost use Rattle.answer.specs.Out.{Put};

// So many bytes (of the list: words), or more than there is room for: after that nothing is written any more.
// An enum of its own: the writers are its methods, and `Option` takes none of ours. No `Result`: no room is no failure here, the writers behind it go on and write nothing.
#[derive(Clone, Copy)]
pub enum Wrote {
    Bytes(usize),
    NoRoom,
}

impl Wrote {
    // A cursor past the end is one with no room.
    pub fn settled(self, out: &mut [u8]) -> Wrote
        ensures { Put self [] out.old result out.new }
    {
        match self {
            Wrote::NoRoom => Wrote::NoRoom,
            Wrote::Bytes(n) => {
                if out.len() < n {
                    return Wrote::NoRoom;
                }
                Wrote::Bytes(n)
            }
        }
    }
}
