// What row 8 counts.
ghost use Rattle.std.specs.Prelude.{◌≡◌, ◌+◌, nat_le, get_or, if◌then◌else◌, Some, None};
ghost use Rattle.penne.specs.Reader.{an_entry};
ghost use Rattle.penne.specs.Read.{stmt_counts, stmt_kinds, k_bad_stmt, decl_counts, decl_kinds, k_bad_decl};
ghost use Rattle.fields.specs.Answers.{counts_of, Counting};

#[derive(Clone, Copy, PartialEq, Eq)]
pub struct Counts {
    pub containers: u32,
    pub functions: u32,
    pub entries: u32,
    pub statements: u32,
}

impl Counts {
    pub const NONE: Counts = Counts {
        containers: 0,
        functions: 0,
        entries: 0,
        statements: 0,
    };
}

fn sum_within(a: u32, b: u32, limit: u32) -> Option<u32>
    ensures { result ≡ (if nat_le (a + b) limit then Some (a + b) else None) }
{
    a.checked_add(b).filter(|sum| *sum <= limit)
}

// Both together, where row 8 allows it.
#[tactic(auto, unfolding(crate::specs::Answers::together, penne::specs::Reader::fits, penne::specs::Reader::plus))]
pub fn count(a: Counts, b: Counts) -> Option<Counts>
    ensures { Counting a b result }
{
    Some(Counts {
        containers: sum_within(a.containers, b.containers, 128)?,
        functions: sum_within(a.functions, b.functions, 256)?,
        entries: sum_within(a.entries, b.entries, 1024)?,
        statements: sum_within(a.statements, b.statements, 2048)?,
    })
}

// What a parameter or a member counts as.
#[tactic(auto, unfolding(penne::specs::Reader::an_entry))]
pub fn entry() -> Counts
    ensures { counts_of result ≡ an_entry }
{
    Counts {
        entries: 1,
        ..Counts::NONE
    }
}

// What a statement counts as: declarations and labels are entries too.
#[tactic(auto, using(crate::proofs::Counting::stmt_counts_rest), unfolding(penne::specs::Read::stmt_counts, penne::specs::Read::stmt_kinds, penne::specs::Reader::plus, penne::specs::Reader::a_statement, penne::specs::Reader::an_entry))]
pub fn statement_counts(kind: u32) -> Counts
    ensures { counts_of result ≡ stmt_counts (get_or stmt_kinds kind k_bad_stmt) }
{
    match kind {
        0 | 5 => Counts {
            entries: 1,
            statements: 1,
            ..Counts::NONE
        },
        _ => Counts {
            statements: 1,
            ..Counts::NONE
        },
    }
}

// What a declaration counts as: constants and structures are containers, functions and their heads are functions.
#[tactic(auto, using(crate::proofs::Counting::decl_counts_rest), unfolding(penne::specs::Read::decl_counts, penne::specs::Read::decl_kinds, penne::specs::Reader::nothing, penne::specs::Reader::a_container, penne::specs::Reader::a_function))]
pub fn declaration_counts(kind: u32) -> Counts
    ensures { counts_of result ≡ decl_counts (get_or decl_kinds kind k_bad_decl) }
{
    match kind {
        0 | 3 => Counts {
            containers: 1,
            ..Counts::NONE
        },
        1 | 2 => Counts {
            functions: 1,
            ..Counts::NONE
        },
        _ => Counts::NONE,
    }
}
