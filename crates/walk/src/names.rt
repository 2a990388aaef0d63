// What declares and uses names.
ghost use Rattle.std.specs.Prelude.{ℕ, ◌≤◌, List, [], get_or};
ghost use Rattle.penne.specs.Scopes.{declare_variable, use_struct, use_constant, use_function, use_variable};
ghost use Rattle.penne.specs.Variables.{use_called};
ghost use Rattle.walk.specs.Walking.{Opens, Closes, Numbers, Constexpr, Declares, Uses, UsesListed};
ghost use Rattle.walk.specs.Calls.{DeclaresBy, Pushes, FindsLocal, LocalOf, Became, PlaceOfVariable, PlaceOfLocal, NoConstant, UsesRow, UsesLocal, ListsSkip, MayBeSkipped, PoisonsLocal, FindsFunctionIn, FunctionAt};

use super::edges::{Holder, container_at, edge_to, find_in};
use super::fault::{Fault, duplicate};
use super::state::{Script, Walk};
use answer::identifier::resolved;
use containers::containers::Declared;
use containers::functions::{find_function, function};
use fields::field::Identifier;
use memory::layout::{
    FUNCTIONS, FUNCTIONS_END, LABEL_NAME, LABEL_PLACE, SCOPES, SCOPES_END, WORDS,
};
use memory::words::{next, word};
use scopes::pruning::{Fate, fate_of, poison_variable};
use scopes::scope::{Local, Scope, local_at};

// DECLARING: a duplicate is answered by poison, yet takes an id and stays declared.

impl Walk {
    // declare_variable (kind 4), declare_parameter (5), declare_member (6): a duplicate of any name in scope, a constant's too.
    pub fn declare_variable(
        &mut self,
        work: &mut [u32],
        kind: u32,
        i: Identifier,
        from: usize,
    ) -> Result<Identifier, Fault>
        ensures { DeclaresBy kind self.old i from work.old self.new result work.new }
    {
        let made = resolved(i, self.tables.next_id, 1);
        let before = self.place_of_variable(work, i.name);
        self.push_variable(work, made, from);
        match before {
            Some(place) => Err(duplicate(kind, i, place)),
            None => Ok(made),
        }
    }

    // Where the outermost variable of a name was declared.
    #[tactic(auto, using(crate::proofs::Placing::place_local, crate::proofs::Placing::place_constant))]
    fn place_of_variable(&self, work: &[u32], name: u32) -> Option<u32>
        ensures { PlaceOfVariable self.now name work.now result }
    {
        match find_in(work, self.script, 0, name) {
            Some(row) => Some(container_at(work, row).place),
            None => self.place_of_local(work, name),
        }
    }

    #[tactic(auto, using(crate::proofs::Placing::no_local, crate::proofs::Placing::the_local))]
    fn place_of_local(&self, work: &[u32], name: u32) -> Option<u32>
        ensures { PlaceOfLocal self.now name work.now result }
    {
        let k = self.find_local(work, name)?;
        Some(local_of(work, k).place)
    }

    fn find_local(&self, work: &[u32], name: u32) -> Option<usize>
        ensures { FindsLocal self.now name work.now result }
    {
        if work.len() < WORDS {
            return None;
        }
        self.tables.scope.find(&work[SCOPES..SCOPES_END], name)
    }

    // The last layer with one more, which takes the next id.
    fn push_variable(&mut self, work: &mut [u32], i: Identifier, from: usize)
        ensures { Pushes self.old i from work.old self.new work.new }
    {
        if work.len() < WORDS {
            return;
        }
        if 65535 < from {
            return;
        }
        let local = Local {
            name: i.name,
            place: i.place,
            from: from as u32,
            id: i.id,
        };
        let scope = self
            .tables
            .scope
            .declare(&mut work[SCOPES..SCOPES_END], local);
        self.tables.scope = scope;
        self.tables.next_id = next(self.tables.next_id);
    }
}

fn local_of(work: &[u32], k: usize) -> Local
    ensures { LocalOf k work.now result }
{
    if work.len() < WORDS {
        return Local::NONE;
    }
    local_at(&work[SCOPES..SCOPES_END], k)
}

// USING: a use takes the id of what it finds, and authority 0.

impl Walk {
    pub fn use_struct(&self, work: &mut [u32], i: Identifier) -> Result<Identifier, Fault>
        ensures { Uses use_struct self.now i work.old result work.new }
    {
        let Identifier { name, place, .. } = i;
        let row = find_in(work, self.script, 3, name).ok_or(Fault::UndefinedStructure {
            name,
            place,
        })?;
        self.use_containee(work, i, row)
    }

    // "`use_constant` searches layer 0 first, then only to choose kind 12 or 9.": NotACompileTimeConstant or UndefinedVariable.
    pub fn use_constant(&self, work: &mut [u32], i: Identifier) -> Result<Identifier, Fault>
        ensures { Uses use_constant self.now i work.old result work.new }
    {
        match find_in(work, self.script, 0, i.name) {
            Some(row) => self.use_containee(work, i, row),
            None => Err(self.no_constant(work, i)),
        }
    }

    #[tactic(auto, using(crate::proofs::Using::use_local_constant, crate::proofs::Using::use_no_constant))]
    fn no_constant(&self, work: &[u32], i: Identifier) -> Fault
        ensures { NoConstant self.now i work.now result }
    {
        let Identifier { name, place, .. } = i;
        match self.place_of_local(work, name) {
            Some(declaration) => Fault::NotACompileTimeConstant {
                name,
                place,
                declaration,
            },
            None => Fault::UndefinedVariable { name, place },
        }
    }

    // The use of a constant or structure by its row: in a constant's value a use is an edge.
    fn use_containee(
        &self,
        work: &mut [u32],
        i: Identifier,
        row: usize,
    ) -> Result<Identifier, Fault>
        ensures { UsesRow self.now i row work.old result work.new }
    {
        let made = resolved(i, container_at(work, row).id, 0);
        if let Some(constant) = self.tables.constant {
            let holder = Holder {
                row: constant as usize,
                member: None,
            };
            edge_to(work, self.script, holder, row)?;
        }
        Ok(made)
    }

    pub fn use_function(&self, work: &[u32], i: Identifier) -> Result<Identifier, Fault>
        ensures { Uses use_function self.now i work.now result work.now }
    {
        let Identifier { name, place, .. } = i;
        let row = find_function_in(work, self.script, name).ok_or(Fault::UndefinedFunction {
            name,
            place,
        })?;
        Ok(resolved(i, function_at(work, row).id, 0))
    }

    // The name of a call: a builtin's stays as it came.
    pub fn use_called(&self, work: &[u32], i: Identifier, builtin: u32) -> Result<Identifier, Fault>
        ensures { Uses (λ x. use_called x builtin) self.now i work.now result work.now }
    {
        if builtin != 0 {
            return Ok(i);
        }
        self.use_function(work, i)
    }

    // use_variable: all layers are searched, the outermost first. The identifier stands at `from`.
    pub fn use_variable(
        &mut self,
        list: &mut [u32],
        work: &mut [u32],
        i: Identifier,
        from: usize,
    ) -> Result<Identifier, Fault>
        ensures { UsesListed use_variable self.old i from list.old work.old self.new result list.new work.new }
    {
        match find_in(work, self.script, 0, i.name) {
            Some(row) => self.use_containee(work, i, row),
            None => self.use_local(list, work, i, from),
        }
    }

    fn use_local(
        &mut self,
        list: &mut [u32],
        work: &mut [u32],
        i: Identifier,
        from: usize,
    ) -> Result<Identifier, Fault>
        ensures { UsesLocal self.old i from list.old work.old self.new result list.new work.new }
    {
        let Identifier { name, place, .. } = i;
        let k = self
            .find_local(work, name)
            .ok_or(Fault::UndefinedVariable { name, place })?;
        let declared = local_of(work, k);
        match what_became(work, k) {
            Fate::Standing => Ok(resolved(i, declared.id, 0)),
            Fate::Poisoned => {
                self.list_skip(list, from, declared);
                Err(Fault::Poisoned)
            }
            Fate::Pruned(label, goto) => {
                let fault = may_be_skipped(work, i, declared, label, goto);
                poison_local(work, k);
                self.list_skip(list, from, declared);
                Err(fault)
            }
        }
    }

    // The refused use goes into the list.
    #[tactic(auto, using(crate::proofs::Looking::listed_far, crate::proofs::Skipping::listed_is))]
    fn list_skip(&mut self, list: &mut [u32], from: usize, declared: Local)
        ensures { ListsSkip self.old from declared list.old self.new list.new }
    {
        if 65535 < from {
            return;
        }
        self.listed = self.listed.then_record(list, from as u32, declared.from);
    }
}

#[tactic(auto, using(crate::proofs::Looking::finds_no_function))]
pub fn find_function_in(work: &[u32], script: Script, name: u32) -> Option<usize>
    ensures { FindsFunctionIn script name work.now result }
{
    if work.len() < WORDS {
        return None;
    }
    let count = script.functions as usize;
    find_function(&work[FUNCTIONS..FUNCTIONS_END], count, name)
}

pub fn function_at(work: &[u32], row: usize) -> Declared
    ensures { FunctionAt row work.now result }
{
    if work.len() < WORDS {
        return Declared::NONE;
    }
    function(&work[FUNCTIONS..FUNCTIONS_END], row)
}

fn what_became(work: &[u32], k: usize) -> Fate
    ensures { Became k work.now result }
{
    if work.len() < WORDS {
        return Fate::Standing;
    }
    fate_of(&work[SCOPES..SCOPES_END], k)
}

#[tactic(auto, using(crate::proofs::Looking::poisoned_not, crate::proofs::Skipping::poisoned_is))]
fn poison_local(work: &mut [u32], k: usize)
    ensures { PoisonsLocal k work.old work.new }
{
    if work.len() < WORDS {
        return;
    }
    poison_variable(&mut work[SCOPES..SCOPES_END], k);
}

// VariableDeclarationMayBeSkipped, of a label in the table.
#[tactic(auto, using(crate::proofs::Skipping::skipped_is))]
fn may_be_skipped(work: &[u32], i: Identifier, declared: Local, label: usize, goto: u32) -> Fault
    ensures { MayBeSkipped work.now i declared label goto result }
{
    if 1024 <= label {
        return Fault::Poisoned;
    }
    Fault::VariableDeclarationMayBeSkipped {
        name: i.name,
        label: word(work, SCOPES + LABEL_NAME + label),
        place: i.place,
        declaration: declared.place,
        goto,
        place_of_label: word(work, SCOPES + LABEL_PLACE + label),
    }
}

// SCOPES

impl Walk {
    // push_scope: a layer begins.
    #[tactic(auto, using(crate::proofs::Scoping::opened_is))]
    pub fn push_scope(&mut self)
        ensures { Opens self.old self.new }
    {
        self.tables.scope = self.tables.scope.open();
    }

    // pop_scope: the variables are those of `outer` again, the ids go on.
    pub fn pop_scope(&mut self, work: &mut [u32], outer: Scope)
        ensures { Closes self.old outer work.old self.new work.new }
    {
        if work.len() < WORDS {
            return;
        }
        self.tables.scope = self
            .tables
            .scope
            .close(&mut work[SCOPES..SCOPES_END], outer);
    }

    // create_anonymous_resolution_id: the next id is taken.
    pub fn create_anonymous_resolution_id(&mut self)
        ensures { Numbers self.old self.new }
    {
        self.tables.next_id = next(self.tables.next_id);
    }

    // Another `in_constexpr_of_constant`.
    pub fn in_constexpr_of(&mut self, constant: Option<u32>)
        ensures { Constexpr self.old constant self.new }
    {
        self.tables.constant = constant;
    }
}
