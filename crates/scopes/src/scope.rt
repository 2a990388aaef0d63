// The layers of local variables laid end to end, the outermost first. Of each name the head says which entry comes first: a word of the work memory, so that it is 1 + the entry's number, or 0 for none.
ghost use Rattle.scopes.specs.Calls.{Begins, Opens, Closes, Declares, Searches, LocalAt, Enters, Leads, Vacates};

use memory::layout::{HEADS, LOCAL_FATE, LOCAL_FROM, LOCAL_ID, LOCAL_NAME, LOCAL_PLACE};
use memory::words::{set_word, word};

// How many entries there are, and where the last layer begins.
#[derive(Clone, Copy)]
pub struct Scope {
    pub count: usize,
    pub layer: usize,
}

// An identifier that is declared: its name, its place, where it stands in the tree, its id.
#[derive(Clone, Copy)]
pub struct Local {
    pub name: u32,
    pub place: u32,
    pub from: u32,
    pub id: u32,
}

impl Local {
    pub const NONE: Local = Local {
        name: 0,
        place: 0,
        from: 0,
        id: 0,
    };
}

impl Scope {
    #[tactic(auto, using(crate::proofs::Scoping::begun))]
    pub fn new() -> Self
        ensures { Begins result }
    {
        Scope { count: 0, layer: 0 }
    }

    // A layer begins at the entries that are there.
    #[tactic(auto, using(crate::proofs::Scoping::opened))]
    pub fn open(self) -> Self
        ensures { Opens self result }
    {
        Scope {
            layer: self.count,
            ..self
        }
    }

    // Back to the scope that was open before.
    pub fn close(self, table: &mut [u32], outer: Scope) -> Self
        ensures { Closes self outer table.old result table.new }
    {
        for k in (outer.count..self.count).rev() {
            vacate(table, k);
        }
        outer
    }

    // One entry more in the last layer. Row 8 leaves room for all.
    pub fn declare(self, table: &mut [u32], local: Local) -> Self
        ensures { Declares self local table.old result table.new }
    {
        let k = self.count;
        if 1024 <= k {
            return self;
        }
        enter(table, k, local);
        lead(table, k, local.name);
        Scope {
            count: k + 1,
            ..self
        }
    }

    // The outermost entry of that name, the first declared.
    #[tactic(auto, using(crate::proofs::Scoping::find_laws))]
    pub fn find(self, table: &[u32], name: u32) -> Option<usize>
        ensures { Searches self table.now name result }
    {
        if 1024 <= name {
            return None;
        }
        let entry = word(table, HEADS + name as usize).checked_sub(1)?;
        Some(entry as usize)
    }
}

#[tactic(auto, using(crate::proofs::Scoping::read_past, crate::proofs::Scoping::read_at))]
pub fn local_at(table: &[u32], k: usize) -> Local
    ensures { LocalAt table.now k result }
{
    if 1024 <= k {
        return Local::NONE;
    }
    Local {
        name: word(table, LOCAL_NAME + k),
        place: word(table, LOCAL_PLACE + k),
        from: word(table, LOCAL_FROM + k),
        id: word(table, LOCAL_ID + k),
    }
}

// The columns of entry k; a variable is standing when it is declared.
#[tactic(auto, using(crate::proofs::Scoping::enter_past, crate::proofs::Scoping::entered))]
fn enter(table: &mut [u32], k: usize, local: Local)
    ensures { Enters k local table.old table.new }
{
    if 1024 <= k {
        return;
    }
    set_word(table, LOCAL_NAME + k, local.name);
    set_word(table, LOCAL_PLACE + k, local.place);
    set_word(table, LOCAL_FROM + k, local.from);
    set_word(table, LOCAL_ID + k, local.id);
    set_word(table, LOCAL_FATE + k, 0);
}

// Entry k heads its name, where none does yet.
#[tactic(auto, using(crate::proofs::Scoping::lead_laws))]
fn lead(table: &mut [u32], k: usize, name: u32)
    ensures { Leads k name table.old table.new }
{
    if 1024 <= k || 1024 <= name {
        return;
    }
    let at = HEADS + name as usize;
    if word(table, at) == 0 {
        set_word(table, at, (k + 1) as u32);
    }
}

// Entry k goes: if it heads its name, nothing does any more, since all others of that name stand behind it.
fn vacate(table: &mut [u32], k: usize)
    ensures { Vacates k table.old table.new }
{
    if 1024 <= k {
        return;
    }
    let name = word(table, LOCAL_NAME + k);
    if 1024 <= name {
        return;
    }
    let at = HEADS + name as usize;
    if word(table, at) == (k + 1) as u32 {
        set_word(table, at, 0);
    }
}
