// Poisons: a kind, then as many names and places as the reader's table says.
ghost use Rattle.answer.specs.Out.{Put};
ghost use Rattle.answer.specs.Parts.{poisoned_b};

use super::wrote::Wrote;
use fields::poison::{poison_names, poison_places};

impl Wrote {
    // What a kind has no use for of the names and places is left out. Kind 17's one number counts as a place.
    pub fn then_poison(self, out: &mut [u8], kind: u32, names: [u32; 2], places: [u32; 4]) -> Wrote
        ensures { Put self (poisoned_b kind names places) out.old result out.new }
    {
        self.then_number(out, kind)
            .then_each(out, &names, poison_names(kind) as usize)
            .then_each(out, &places, poison_places(kind) as usize)
    }
}
