// `containers` of variable_references.rs. A table is the part CONTAINERS of the work words; a container is known by its row, in predeclaration order.
ghost use Rattle.std.specs.Prelude.{◌≡◌};
ghost use Rattle.containers.specs.Calls.{read_at, written_at, Pushes, Tells, row_is, Finds, FollowsRows, constant_in, FindsConstant};
ghost use Rattle.containers.specs.Bits.{HandsTo, HandsOn, TakesIn};

use memory::layout::{
    CONTAINED, CONTAINED_END, CONTAINER_DEPTH, CONTAINER_ID, CONTAINER_KIND, CONTAINER_NAME,
    CONTAINER_PLACE, CONTAINERS_WORDS, EDGES, SPARE,
};
use memory::rows::{add, has, join, remove};
use memory::words::{set_word, word};

// An identifier that is predeclared: its name, its place, its id.
#[derive(Clone, Copy)]
pub struct Declared {
    pub name: u32,
    pub place: u32,
    pub id: u32,
}

impl Declared {
    pub const NONE: Declared = Declared {
        name: 0,
        place: 0,
        id: 0,
    };

    pub(crate) fn read(table: &[u32], name: usize, place: usize, id: usize) -> Declared
        ensures { result ≡ read_at name place id table.now }
    {
        Declared {
            name: word(table, name),
            place: word(table, place),
            id: word(table, id),
        }
    }

    pub(crate) fn write(self, table: &mut [u32], name: usize, place: usize, id: usize)
        ensures { table.new ≡ written_at name place id self table.old }
    {
        set_word(table, name, self.name);
        set_word(table, place, self.place);
        set_word(table, id, self.id);
    }
}

// What becomes of an edge.
#[derive(Clone, Copy)]
pub enum Contained {
    Fine,
    Poisoned,
    Cyclical,
}

// A constant (kind 0) or a structure (kind 3), as declare_constant and declare_struct push it.
#[tactic(auto, using(crate::proofs::Pushing::pushes_none, crate::proofs::Pushing::pushes_is))]
pub fn push_container(table: &mut [u32], row: usize, kind: u32, declared: Declared)
    ensures { Pushes row kind declared table.old table.new }
{
    if 128 <= row {
        return;
    }
    declared.write(
        table,
        CONTAINER_NAME + row,
        CONTAINER_PLACE + row,
        CONTAINER_ID + row,
    );
    set_word(table, CONTAINER_KIND + row, kind);
    set_word(table, CONTAINER_DEPTH + row, 0);
}

#[tactic(auto, using(crate::proofs::Pushing::tells_none, crate::proofs::Pushing::tells_is))]
pub fn container(table: &[u32], row: usize) -> Declared
    ensures { Tells row table.now result }
{
    if 128 <= row {
        return Declared::NONE;
    }
    Declared::read(
        table,
        CONTAINER_NAME + row,
        CONTAINER_PLACE + row,
        CONTAINER_ID + row,
    )
}

// The first of that kind and name among so many.
pub fn find_container(table: &[u32], count: usize, kind: u32, name: u32) -> Option<usize>
    ensures { Finds count kind name table.now result }
{
    (0..count).find(|&row| is_named(table, row, kind, name))
}

#[tactic(auto, using(crate::proofs::Finding::row))]
fn is_named(table: &[u32], row: usize, kind: u32, name: u32) -> bool
    ensures { result ≡ row_is table.now kind name row }
{
    row < 128
        && word(table, CONTAINER_KIND + row) == kind
        && word(table, CONTAINER_NAME + row) == name
}

// The container takes in the containee and all that it contains, and so do all that contain the container.
pub fn found_container_1(
    table: &mut [u32],
    count: usize,
    container: usize,
    containee: usize,
) -> Contained
    ensures { FollowsRows count container containee table.old result table.new }
{
    if table.len() < CONTAINERS_WORDS {
        return Contained::Fine;
    }
    add(&mut table[EDGES..CONTAINERS_WORDS], container, containee);
    take_in(
        &mut table[CONTAINED..CONTAINED_END],
        count,
        container,
        containee,
    )
}

#[tactic(auto, using(crate::proofs::Joining::take_in_laws))]
fn take_in(rows: &mut [u32], count: usize, container: usize, containee: usize) -> Contained
    ensures { TakesIn count container containee rows.old result rows.new }
{
    if has(rows, container, container) {
        return Contained::Poisoned;
    }
    remove(rows, SPARE, SPARE);
    join(rows, containee, SPARE);
    add(rows, SPARE, containee);
    join(rows, SPARE, container);
    if has(rows, container, container) {
        return Contained::Cyclical;
    }
    hand_on(rows, count, container);
    Contained::Fine
}

// All that contain the container take in what the spare row has.
#[tactic(auto, using(crate::proofs::Joining::hand_on_laws))]
fn hand_on(rows: &mut [u32], count: usize, container: usize)
    ensures { HandsOn count container rows.old rows.new }
{
    for row in 0..count {
        hand_to(rows, row, container);
    }
}

#[tactic(auto, using(crate::proofs::Joining::hands_to_none, crate::proofs::Joining::hands_to_all))]
fn hand_to(rows: &mut [u32], row: usize, container: usize)
    ensures { HandsTo row container rows.old rows.new }
{
    if has(rows, row, container) {
        join(rows, SPARE, row);
    }
}

// "the first constant, in predeclaration order, in the container's set"
pub fn constant_in_cycle(table: &[u32], count: usize, container: usize) -> Option<usize>
    ensures { FindsConstant count container table.now result }
{
    (0..count).find(|&row| is_constant_in(table, container, row))
}

#[tactic(auto, using(crate::proofs::Finding::is_constant_in_laws), unfolding(crate::specs::Table::contained_in))]
fn is_constant_in(table: &[u32], container: usize, row: usize) -> bool
    ensures { result ≡ constant_in table.now container row }
{
    if table.len() < CONTAINERS_WORDS || 128 <= row {
        return false;
    }
    word(table, CONTAINER_KIND + row) == 0 && has(&table[CONTAINED..CONTAINED_END], container, row)
}
