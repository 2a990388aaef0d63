// Why a tree is refused, and where.
ghost use Rattle.std.specs.Prelude.{◌≡◌};
ghost use Rattle.fields.specs.Answers.{row_of};

use std::fmt;

// The rows of the table in docs/FORM.md, in its order.
#[derive(Clone, Copy, Debug, PartialEq, Eq)]
pub enum Reason {
    TreeTooLong, // more than 65,535 bytes
    WorkTooSmall, // too little work memory is lent
    CutOff, // a field runs past the end
    BadNumber, // too many groups, too large, or not the shortest form
    OutOfRange, // an unknown kind, a field or name number out of range, an incoming depth
    BadName, // a name that is empty, too long, or there already
    TooDeep, // a node at nesting 65
    TooMany, // more than one of row 8's counts allows
    NamelessType, // kind 23 where a constant's or member's own type stands
    LeftOver, // bytes behind the tree
    AnswerFull, // the answered tree is longer than its buffer
    ListFull, // the skip list needs more words than lent
    NoSuchDeclaration, // an answered tree has no declaration of this number
}

impl Reason {
    // The row.
    pub fn number(self) -> u32
        ensures { result ≡ row_of self }
    {
        match self {
            Reason::TreeTooLong => 1,
            Reason::WorkTooSmall => 2,
            Reason::CutOff => 3,
            Reason::BadNumber => 4,
            Reason::OutOfRange => 5,
            Reason::BadName => 6,
            Reason::TooDeep => 7,
            Reason::TooMany => 8,
            Reason::NamelessType => 9,
            Reason::LeftOver => 10,
            Reason::AnswerFull => 11,
            Reason::ListFull => 12,
            Reason::NoSuchDeclaration => 13,
        }
    }

    // A refusal for this reason.
    pub fn at(self, place: usize) -> Refusal
        ensures { result ≡ record { reason = self; place = place } }
    {
        Refusal {
            reason: self,
            place,
        }
    }
}

#[derive(Clone, Copy, Debug, PartialEq, Eq)]
pub struct Refusal {
    pub reason: Reason,
    pub place: usize,
}

impl fmt::Display for Refusal {
    ghost use Rattle.std.specs.Prelude.{Some};
    ghost use Rattle.fields.specs.Answers.{refusal_text};

    ghost output = { λ e. Some (refusal_text e) };

    fn fmt<W: fmt::Write>(&self, f: &mut fmt::Formatter<W>) -> fmt::Result {
        let number = self.reason.number();
        write!(f, "refused {} at {}", number, self.place)
    }
}
