// Poisons that the pass makes: the Rust's, with a place for each location.
ghost use Rattle.std.specs.Prelude.{◌≡◌};
ghost use Rattle.answer.specs.Out.{Put};
ghost use Rattle.walk.specs.Walking.{fault_b, duplicate_fault, label_fault};

use answer::wrote::Wrote;
use fields::field::Identifier;

#[derive(Clone, Copy)]
pub enum Fault {
    Poisoned,
    DuplicateDeclarationLabel {
        name: u32,
        place: u32,
        previous: u32,
    },
    UndefinedLabel {
        name: u32,
        place: u32,
    },
    // The Rust's six, told apart by kind: a constant (3), variable (4), parameter (5), member (6), function (7) or structure (8).
    DuplicateDeclaration {
        kind: u32,
        name: u32,
        place: u32,
        previous: u32,
    },
    UndefinedVariable {
        name: u32,
        place: u32,
    },
    UndefinedFunction {
        name: u32,
        place: u32,
    },
    UndefinedStructure {
        name: u32,
        place: u32,
    },
    NotACompileTimeConstant {
        name: u32,
        place: u32,
        declaration: u32,
    },
    VariableDeclarationMayBeSkipped {
        name: u32,
        label: u32,
        place: u32,
        declaration: u32,
        goto: u32,
        place_of_label: u32,
    },
    CyclicalConstant {
        name: u32,
        place: u32,
    },
    CyclicalStructure {
        name: u32,
        place: u32,
        member: u32,
    },
    CyclicalStructureWithConstant {
        name: u32,
        constant: u32,
        place: u32,
        member: u32,
        place_of_constant: u32,
    },
}

// By kind, names and places; those that the kind has no use for are not written. A function: `Wrote` is another crate's type, whose methods stand there.
pub fn then_fault(answer: &mut [u8], w: Wrote, fault: Fault) -> Wrote
    ensures { Put w (fault_b fault) answer.old result answer.new }
{
    let (kind, names, places) = match fault {
        Fault::Poisoned => (0, [0, 0], [0, 0, 0, 0]),
        // The place of the label visited before it comes first.
        Fault::DuplicateDeclarationLabel {
            name,
            place,
            previous,
        } => (1, [name, 0], [previous, place, 0, 0]),
        Fault::UndefinedLabel { name, place } => (2, [name, 0], [place, 0, 0, 0]),
        Fault::DuplicateDeclaration {
            kind,
            name,
            place,
            previous,
        } => (kind, [name, 0], [place, previous, 0, 0]),
        Fault::UndefinedVariable { name, place } => (9, [name, 0], [place, 0, 0, 0]),
        Fault::UndefinedFunction { name, place } => (10, [name, 0], [place, 0, 0, 0]),
        Fault::UndefinedStructure { name, place } => (11, [name, 0], [place, 0, 0, 0]),
        Fault::NotACompileTimeConstant {
            name,
            place,
            declaration,
        } => (12, [name, 0], [place, declaration, 0, 0]),
        Fault::VariableDeclarationMayBeSkipped {
            name,
            label,
            place,
            declaration,
            goto,
            place_of_label,
        } => (
            13,
            [name, label],
            [place, declaration, goto, place_of_label],
        ),
        Fault::CyclicalConstant { name, place } => (14, [name, 0], [place, 0, 0, 0]),
        Fault::CyclicalStructure {
            name,
            place,
            member,
        } => (15, [name, 0], [place, member, 0, 0]),
        Fault::CyclicalStructureWithConstant {
            name,
            constant,
            place,
            member,
            place_of_constant,
        } => (16, [name, constant], [place, member, place_of_constant, 0]),
    };
    w.then_poison(answer, kind, names, places)
}

// DuplicateDeclaration, by its kind.
pub fn duplicate(kind: u32, i: Identifier, previous: u32) -> Fault
    ensures { result ≡ duplicate_fault kind i previous }
{
    let Identifier { name, place, .. } = i;
    Fault::DuplicateDeclaration {
        kind,
        name,
        place,
        previous,
    }
}

pub fn duplicate_label(i: Identifier, previous: u32) -> Fault
    ensures { result ≡ label_fault i previous }
{
    let Identifier { name, place, .. } = i;
    Fault::DuplicateDeclarationLabel {
        name,
        place,
        previous,
    }
}
