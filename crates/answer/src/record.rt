// The skip list: words, two a record.
ghost use Rattle.std.specs.Prelude.{[], ◌∷◌};
ghost use Rattle.answer.specs.Out.{Put};

use super::wrote::Wrote;

impl Wrote {
    pub fn then_word(self, list: &mut [u32], value: u32) -> Wrote
        ensures { Put self (value ∷ []) list.old result list.new }
    {
        match self {
            Wrote::NoRoom => Wrote::NoRoom,
            Wrote::Bytes(n) => {
                if list.len() <= n {
                    return Wrote::NoRoom;
                }
                list[n] = value;
                Wrote::Bytes(n + 1)
            }
        }
    }

    // "A record is two words: offset of the use's identifier in the input, offset of the identifier it resolves to."
    pub fn then_record(self, list: &mut [u32], usage: u32, declared: u32) -> Wrote
        ensures { Put self (usage ∷ declared ∷ []) list.old result list.new }
    {
        self.then_word(list, usage).then_word(list, declared)
    }
}
