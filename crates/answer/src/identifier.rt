// Identifiers.
ghost use Rattle.std.specs.Prelude.{◌≡◌};
ghost use Rattle.answer.specs.Out.{Put};
ghost use Rattle.answer.specs.Parts.{identifier_b, resolved_to};

use super::wrote::Wrote;
use fields::field::Identifier;

// The identifier made anew: its id and authority are overwritten, name and place stay.
pub fn resolved(i: Identifier, id: u32, authority: u32) -> Identifier
    ensures { result ≡ resolved_to i id authority }
{
    Identifier { id, authority, ..i }
}

impl Wrote {
    pub fn then_identifier(self, out: &mut [u8], i: Identifier) -> Wrote
        ensures { Put self (identifier_b i.name i.place i.id i.authority) out.old result out.new }
    {
        self.then_number(out, i.name)
            .then_number(out, i.place)
            .then_number(out, i.id)
            .then_number(out, i.authority)
    }
}
