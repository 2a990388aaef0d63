// The whole tree: names as they came, declarations, depths.
ghost use Rattle.penne.specs.Reader.{many};
ghost use Rattle.penne.specs.Read.{read_decl};
ghost use Rattle.tree.specs.Ends.{Known};
ghost use Rattle.walk.specs.Walking.{Walks};
ghost use Rattle.declaration_parts.specs.Declaring.{decls_walk};
ghost use Rattle.variable_references.specs.Whole.{Started, References};

use super::declaration::declaration;
use answer::wrote::Wrote;
use fields::counts::Counts;
use scopes::scope::Scope;
use stages::depths::{determine_depths, then_depths};
use stages::names::{main_name, then_names};
use stages::predeclare::{Predeclared, predeclare_all};
use tree::script::Layout;
use walk::state::{Script, Tables, Walk};

// How far answer and list are written, or that they did not fit.
#[derive(Clone, Copy)]
pub struct Answered {
    pub wrote: Wrote,
    pub listed: Wrote,
}

pub fn variable_references(
    tree: &[u8],
    answer: &mut [u8],
    list: &mut [u32],
    work: &mut [u32],
    ends: &[u32],
    layout: Layout,
) -> Answered
    ensures { Known tree.now layout.names ends.now → References tree.now layout answer.old list.old work.old result answer.new list.new }
{
    let begin = predeclare_all(tree, work, ends, layout);
    let wrote = then_names(tree, answer).then_number(answer, layout.count);
    let mut st = started(tree, layout, begin, wrote);
    declarations(tree, answer, list, work, &mut st, layout.count);
    determine_depths(work, &st.script);
    Answered {
        wrote: then_depths(tree, answer, work, ends, &st.script, layout, st.wrote),
        listed: st.listed,
    }
}

fn started(tree: &[u8], layout: Layout, begin: Predeclared, wrote: Wrote) -> Walk
    ensures { Started tree.now layout begin wrote result }
{
    Walk {
        at: layout.first,
        wrote,
        listed: Wrote::Bytes(0),
        counts: Counts::NONE,
        tables: Tables {
            scope: Scope::new(),
            next_id: begin.next_id,
            constant: None,
        },
        script: Script {
            names: layout.names,
            main: main_name(tree),
            containers: begin.counts.containers,
            functions: begin.counts.functions,
        },
    }
}

fn declarations(
    tree: &[u8],
    answer: &mut [u8],
    list: &mut [u32],
    work: &mut [u32],
    st: &mut Walk,
    count: u32,
)
    ensures { Walks tree.now (many read_decl count) decls_walk st.old answer.old list.old work.old st.new answer.new list.new work.new }
{
    for _ in 0..count {
        declaration(tree, answer, list, work, st);
    }
}
