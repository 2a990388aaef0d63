// Goto pruning. Labels are known by their row, which is their id less 1.
//
// The Rust intersects the sets of variables in scope at the gotos to a label. A variable of the label's own layer that stands at the label was in scope at a goto
// exactly when it was declared before; ids grow, so it is enough to note which id came next at the first goto.
// Notes and fates are words of the work memory: 0 for no goto yet, and for a variable that stands.
ghost use Rattle.scopes.specs.Jumps.{Prepares, Prunes, Becomes, Poisons, PrunesOne};

use super::scope::Scope;
use memory::layout::{LABEL_GOTO, LABEL_NOTE, LOCAL_FATE, LOCAL_GOTO, LOCAL_ID};
use memory::words::{set_word, word};

// What became of a variable: pruned by the label of that row, after a goto at that place.
#[derive(Clone, Copy)]
pub enum Fate {
    Standing,
    Poisoned,
    Pruned(usize, u32),
}

// At a goto to the label, with the goto's place: "the first goto's place is kept".
pub fn prepare_to_prune_at_goto(table: &mut [u32], label: usize, place: u32, next: u32)
    ensures { Prepares label place next table.old table.new }
{
    if 1024 <= label {
        return;
    }
    if word(table, LABEL_NOTE + label) != 0 {
        return;
    }
    set_word(table, LABEL_NOTE + label, next);
    set_word(table, LABEL_GOTO + label, place);
}

impl Scope {
    // At a label: "variables of its own layer not in scope at every earlier goto to it are pruned".
    pub fn prune_at_label(self, table: &mut [u32], label: usize)
        ensures { Prunes self label table.old table.new }
    {
        if 1024 <= label {
            return;
        }
        let note = word(table, LABEL_NOTE + label);
        if note == 0 {
            return;
        }
        let place = word(table, LABEL_GOTO + label);
        for k in self.layer..self.count {
            prune(table, k, note, label, place);
        }
        set_word(table, LABEL_NOTE + label, 0);
    }
}

// "unless already pruned", which most are where there are many gotos: so that is asked first
fn prune(table: &mut [u32], k: usize, note: u32, label: usize, place: u32)
    ensures { PrunesOne k note label place table.old table.new }
{
    if 1024 <= k || 1024 <= label {
        return;
    }
    if 1 < word(table, LOCAL_FATE + k) {
        return;
    }
    if word(table, LOCAL_ID + k) < note {
        return;
    }
    set_word(table, LOCAL_FATE + k, (label + 2) as u32);
    set_word(table, LOCAL_GOTO + k, place);
}

#[tactic(auto, using(crate::proofs::Becoming::fate_of_laws))]
pub fn fate_of(table: &[u32], k: usize) -> Fate
    ensures { Becomes table.now k result }
{
    if 1024 <= k {
        return Fate::Standing;
    }
    match word(table, LOCAL_FATE + k) {
        0 => Fate::Standing,
        1 => Fate::Poisoned,
        fate => Fate::Pruned((fate - 2) as usize, word(table, LOCAL_GOTO + k)),
    }
}

// A pruned variable becomes a poisoned one: "later uses get Poisoned, until another label prunes it again".
pub fn poison_variable(table: &mut [u32], k: usize)
    ensures { Poisons k table.old table.new }
{
    if 1024 <= k {
        return;
    }
    set_word(table, LOCAL_FATE + k, 1);
}
