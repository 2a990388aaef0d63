// analyze_type. A type is written whole, or nothing of it is, and its poison is told.
#![tactic(auto)]

ghost use Rattle.std.specs.Prelude.{ℕ, get_or, Bool, true, false, List};
ghost use Rattle.penne.specs.Tree.{Spot, Ty};
ghost use Rattle.penne.specs.Reader.{Reader, ret, num};
ghost use Rattle.penne.specs.Read.{ident, maybe, option, k_plain, k_array, k_named_length, k_word, ty_kinds, ty_of, read_ty};
ghost use Rattle.penne.specs.Write.{ident_b, ty_b, maybe_b, carried_b};
ghost use Rattle.penne.specs.Scopes.{use_constant, use_struct};
ghost use Rattle.penne.specs.Variables.{analyze_type, analyze_maybe_type, analyze_option};
ghost use Rattle.walk.specs.Walking.{onward, Walks, Tries};
ghost use Rattle.types.specs.Typing.{fault_of, say_number, passing, element_b, named_b, Contains};

use fields::field::read_identifier;
use fields::number::{below, number};
use walk::edges::{Holder, found_container};
use walk::fault::Fault;
use walk::items::{copy_poison, write_fault};
use walk::state::Walk;

// Where a type is refused the walk is behind it too, and the answer is as long as before it.
#[cycle(types)]
pub fn value_type(
    tree: &[u8],
    answer: &mut [u8],
    work: &mut [u32],
    st: &mut Walk,
    left: u32,
) -> Result<(), Fault>
    ensures { (own : Bool) (l : List ℕ) → Tries tree.now (read_ty left own) analyze_type ty_b st.old answer.old l work.old st.new (fault_of result) answer.new l work.new }
{
    let Ok((k, a)) = below(tree, 26, st.at) else {
        return Ok(());
    };
    if left == 0 {
        return Ok(());
    }
    st.at = a;
    type_of(tree, answer, work, st, left - 1, k)
}

// What follows a type's kind. Kinds are the form's numbers, each beside its function: an enum would be the same table once more.
#[cycle(types)]
fn type_of(
    tree: &[u8],
    answer: &mut [u8],
    work: &mut [u32],
    st: &mut Walk,
    left: u32,
    kind: u32,
) -> Result<(), Fault>
    ensures { (own : Bool) (l : List ℕ) → Tries tree.now (ty_of (read_ty left own) (read_ty left false) kind (get_or ty_kinds kind k_plain)) analyze_type ty_b st.old answer.old l work.old st.new (fault_of result) answer.new l work.new }
{
    match kind {
        0..=13 => {
            plain(answer, st, kind);
            Ok(())
        }
        14 => array(tree, answer, work, st, left),
        15 => array_with_named_length(tree, answer, work, st, left),
        16..=19 | 24..=25 => element_of(tree, answer, work, st, left, kind),
        20 | 22 => structure(tree, answer, work, st, kind),
        21 => word(tree, answer, work, st),
        _ => {
            plain(answer, st, kind);
            Ok(())
        }
    }
}

// The kinds with nothing behind them.
fn plain(answer: &mut [u8], st: &mut Walk, kind: u32)
    ensures { (t l w : List ℕ) → Walks t (ret kind) say_number st.old answer.old l w st.new answer.new l w }
{
    st.wrote = st.wrote.then_number(answer, kind);
}

// The kinds that hold one type, and then perhaps something else: the kind and the type.
#[cycle(types)]
fn element_of(
    tree: &[u8],
    answer: &mut [u8],
    work: &mut [u32],
    st: &mut Walk,
    left: u32,
    kind: u32,
) -> Result<(), Fault>
    ensures { (own : Bool) (l : List ℕ) → Tries tree.now (read_ty left own) analyze_type (element_b kind) st.old answer.old l work.old st.new (fault_of result) answer.new l work.new }
{
    let before = st.wrote;
    st.wrote = before.then_number(answer, kind);
    if let Err(fault) = value_type(tree, answer, work, st, left) {
        st.wrote = before;
        return Err(fault);
    }
    Ok(())
}

#[cycle(types)]
fn array(
    tree: &[u8],
    answer: &mut [u8],
    work: &mut [u32],
    st: &mut Walk,
    left: u32,
) -> Result<(), Fault>
    ensures { (own : Bool) (l : List ℕ) → Tries tree.now (ty_of (read_ty left own) (read_ty left false) 14 k_array) analyze_type ty_b st.old answer.old l work.old st.new (fault_of result) answer.new l work.new }
{
    if let Err(fault) = element_of(tree, answer, work, st, left, 14) {
        past_length(tree, st);
        return Err(fault);
    }
    copy_length(tree, answer, st);
    Ok(())
}

fn copy_length(tree: &[u8], answer: &mut [u8], st: &mut Walk)
    ensures { (l w : List ℕ) → Walks tree.now num say_number st.old answer.old l w st.new answer.new l w }
{
    let Ok((n, a)) = number(tree, st.at) else {
        return;
    };
    st.wrote = st.wrote.then_number(answer, n);
    st.at = a;
}

fn past_length(tree: &[u8], st: &mut Walk)
    ensures { (o l w : List ℕ) → Walks tree.now num passing st.old o l w st.new o l w }
{
    let Ok((_, a)) = number(tree, st.at) else {
        return;
    };
    st.at = a;
}

// An element before its named length.
#[cycle(types)]
fn array_with_named_length(
    tree: &[u8],
    answer: &mut [u8],
    work: &mut [u32],
    st: &mut Walk,
    left: u32,
) -> Result<(), Fault>
    ensures { (own : Bool) (l : List ℕ) → Tries tree.now (ty_of (read_ty left own) (read_ty left false) 15 k_named_length) analyze_type ty_b st.old answer.old l work.old st.new (fault_of result) answer.new l work.new }
{
    let before = st.wrote;
    if let Err(fault) = element_of(tree, answer, work, st, left, 15) {
        past_name(tree, st);
        return Err(fault);
    }
    if let Err(fault) = named_length(tree, answer, work, st) {
        st.wrote = before;
        return Err(fault);
    }
    Ok(())
}

fn named_length(
    tree: &[u8],
    answer: &mut [u8],
    work: &mut [u32],
    st: &mut Walk,
) -> Result<(), Fault>
    ensures { (l : List ℕ) → Tries tree.now ident use_constant ident_b st.old answer.old l work.old st.new (fault_of result) answer.new l work.new }
{
    let Ok((i, a)) = read_identifier(tree, st.script.names, st.at) else {
        return Ok(());
    };
    st.at = a;
    let made = st.use_constant(work, i)?;
    st.wrote = st.wrote.then_identifier(answer, made);
    Ok(())
}

fn past_name(tree: &[u8], st: &mut Walk)
    ensures { (o l w : List ℕ) → Walks tree.now ident passing st.old o l w st.new o l w }
{
    let Ok((_, a)) = read_identifier(tree, st.script.names, st.at) else {
        return;
    };
    st.at = a;
}

// Struct (20), Word (21) without its size, UnresolvedStructOrWord (22).
fn structure(
    tree: &[u8],
    answer: &mut [u8],
    work: &mut [u32],
    st: &mut Walk,
    kind: u32,
) -> Result<(), Fault>
    ensures { (l : List ℕ) → Tries tree.now ident use_struct (named_b kind) st.old answer.old l work.old st.new (fault_of result) answer.new l work.new }
{
    let Ok((i, a)) = read_identifier(tree, st.script.names, st.at) else {
        return Ok(());
    };
    st.at = a;
    let made = st.use_struct(work, i)?;
    st.wrote = st
        .wrote
        .then_number(answer, kind)
        .then_identifier(answer, made);
    Ok(())
}

fn word(tree: &[u8], answer: &mut [u8], work: &mut [u32], st: &mut Walk) -> Result<(), Fault>
    ensures { (t u : Reader (Ty Spot)) (l : List ℕ) → Tries tree.now (ty_of t u 21 k_word) analyze_type ty_b st.old answer.old l work.old st.new (fault_of result) answer.new l work.new }
{
    if let Err(fault) = structure(tree, answer, work, st, 21) {
        past_length(tree, st);
        return Err(fault);
    }
    copy_length(tree, answer, st);
    Ok(())
}

// A type that may be poison.
pub fn maybe_type(tree: &[u8], answer: &mut [u8], work: &mut [u32], st: &mut Walk, left: u32)
    ensures { (own : Bool) (l : List ℕ) → Walks tree.now (maybe (read_ty left own)) (onward analyze_maybe_type (maybe_b ty_b)) st.old answer.old l work.old st.new answer.new l work.new }
{
    let Ok((t, a)) = below(tree, 2, st.at) else {
        return;
    };
    st.at = a;
    if t != 0 {
        return copy_poison(tree, answer, st, 1);
    }
    let before = st.wrote;
    st.wrote = before.then_number(answer, 0);
    if let Err(fault) = value_type(tree, answer, work, st, left) {
        st.wrote = write_fault(answer, before, 1, fault);
    }
}

// A declared variable's type: option maybe type.
pub fn option_type(tree: &[u8], answer: &mut [u8], work: &mut [u32], st: &mut Walk, left: u32)
    ensures { (l : List ℕ) → Walks tree.now (option (maybe (read_ty left false))) (onward (analyze_option analyze_maybe_type) carried_b) st.old answer.old l work.old st.new answer.new l work.new }
{
    let Ok((t, a)) = below(tree, 2, st.at) else {
        return;
    };
    st.at = a;
    st.wrote = st.wrote.then_number(answer, t);
    if t != 0 {
        maybe_type(tree, answer, work, st, left);
    }
}

// The type of a constant or member, with found_container over it where it is fine.
pub fn contained_type(
    tree: &[u8],
    answer: &mut [u8],
    work: &mut [u32],
    st: &mut Walk,
    holder: Holder,
    left: u32,
)
    ensures { (l : List ℕ) → Contains tree.now (maybe (read_ty left true)) holder st.old answer.old l work.old st.new answer.new l work.new }
{
    let Ok((t, a)) = below(tree, 2, st.at) else {
        return;
    };
    st.at = a;
    if t != 0 {
        return copy_poison(tree, answer, st, 1);
    }
    let before = st.wrote;
    st.wrote = before.then_number(answer, 0);
    if let Err(fault) = value_type(tree, answer, work, st, left) {
        st.wrote = write_fault(answer, before, 1, fault);
        return;
    }
    if let Err(fault) = found_container(tree, work, st.script, holder, a, left) {
        st.wrote = write_fault(answer, before, 1, fault);
    }
}
