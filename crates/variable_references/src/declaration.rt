// analyze of Declaration. All names are predeclared: a declaration whose name was declared before it is answered by its poison alone.
// Declarations stand at nesting 1, so that 63 levels are left below them.
ghost use Rattle.std.specs.Prelude.{◌<◌, ◌≡◌, ◌++◌};
ghost use Rattle.penne.specs.Tree.{Spot};
ghost use Rattle.penne.specs.Read.{read_decl};
ghost use Rattle.penne.specs.Write.{place_b};
ghost use Rattle.answer.specs.Parts.{renumbered};
ghost use Rattle.walk.specs.Walking.{Walks};
ghost use Rattle.declaration_parts.specs.Declaring.{decl_walk};
ghost use Rattle.stages.specs.Heads.{own};
ghost use Rattle.declaration_parts.specs.Heading.{begun_function, NewFunction, Arm, Heading, Keeps, function_parts};

use declaration_parts::{
    constant, drop_declaration, function_head, import, started, structure, with_main,
};
use entries::parameters;
use fields::counts::{count, declaration_counts};
use fields::field::Identifier;
use fields::number::below;
use stages::before::declared_before;
use stages::heads::{Head, Start, read_head};
use statements::maybe_body;
use types::maybe_type;
use walk::items::copy_poison;
use walk::names::function_at;
use walk::state::Walk;

pub fn declaration(
    tree: &[u8],
    answer: &mut [u8],
    list: &mut [u32],
    work: &mut [u32],
    st: &mut Walk,
)
    ensures { Walks tree.now read_decl decl_walk st.old answer.old list.old work.old st.new answer.new list.new work.new }
{
    let Ok((kind, at)) = below(tree, 6, st.at) else {
        return;
    };
    let Ok(head) = read_head(tree, st.script.names, at, kind) else {
        return;
    };
    match head {
        Head::Named(h) => named_declaration(tree, answer, list, work, st, kind, h),
        Head::Import => {
            st.at = at;
            import(tree, answer, st);
        }
        Head::Poison => {
            st.at = at;
            copy_poison(tree, answer, st, 5);
        }
    }
}

fn named_declaration(
    tree: &[u8],
    answer: &mut [u8],
    list: &mut [u32],
    work: &mut [u32],
    st: &mut Walk,
    kind: u32,
    h: Start,
)
    ensures { Heading tree.now st.old kind h → Walks tree.now read_decl decl_walk st.old answer.old list.old work.old st.new answer.new list.new work.new }
{
    let twice = declared_before(work, st, kind, h.identifier);
    match twice {
        Some(fault) => drop_declaration(tree, answer, st, fault),
        None => keep_declaration(tree, answer, list, work, st, kind, h),
    }
}

// By the form's number of its kind, as in `types`.
fn keep_declaration(
    tree: &[u8],
    answer: &mut [u8],
    list: &mut [u32],
    work: &mut [u32],
    st: &mut Walk,
    kind: u32,
    h: Start,
)
    ensures { Keeps tree.now kind h st.old answer.old list.old work.old st.new answer.new list.new work.new }
{
    let before = st.counts;
    let Some(counts) = count(before, declaration_counts(kind)) else {
        return;
    };
    st.counts = counts;
    match kind {
        0 => constant(tree, answer, list, work, st, h, before.containers),
        1 => function(tree, answer, list, work, st, h, before.functions),
        2 => function_head(tree, answer, work, st, h, before.functions),
        _ => structure(tree, answer, work, st, h, before.containers),
    }
}

// "A function's own name comes out with authority 0", being looked up again; the return type is analysed outside the scope.
fn function(
    tree: &[u8],
    answer: &mut [u8],
    list: &mut [u32],
    work: &mut [u32],
    st: &mut Walk,
    h: Start,
    row: u32,
)
    ensures { (p q : Spot) → h.flags < 32 → h.identifier.name < st.old.script.names → renumbered tree.now h.places h.from ≡ place_b p ++ place_b q → Arm (NewFunction row (own h)) (begun_function (own h)) tree.now (function_parts h.flags p q (own h)) h.parts st.old answer.old list.old work.old st.new answer.new list.new work.new }
{
    let outer = st.tables.scope;
    let declared = function_at(work, row as usize);
    let i = Identifier {
        id: declared.id,
        authority: 0,
        ..h.identifier
    };
    let flags = with_main(h.flags, i.name, st.script.main);
    started(tree, answer, st, 1, flags, h, i);
    st.push_scope();
    parameters(tree, answer, work, st);
    maybe_body(tree, answer, list, work, st);
    st.pop_scope(work, outer);
    maybe_type(tree, answer, work, st, 63);
}
