// The table of names: so many lengths with their bytes, all different. A length is one byte, since it is at most 64.
#![tactic(auto)]

ghost use Rattle.std.specs.Prelude.{◌≡◌, true, false, ◌≤◌, length, get_or};
ghost use Rattle.penne.specs.Read.{same_bytes, among_names};
ghost use Rattle.name_table.specs.Names.{part, names_from, names_end, OneMore, Tables, hash_of, met_by, Marks, Marked, Knows, Noted};

use fields::field::raw;
use fields::number::number;
use fields::refusal::{Reason, Refusal};

// Are the two parts the same bytes? From the back: names that are not the same most often differ near their ends.
pub fn same(a: &[u8], b: &[u8]) -> bool
    ensures { result ≡ same_bytes a.now b.now }
{
    if a.len() != b.len() {
        return false;
    }
    for i in (0..a.len()).rev() {
        if a[i] != b[i] {
            return false;
        }
    }
    true
}

// So many bytes of the tree, as far as there are any.
pub fn bytes_at(tree: &[u8], at: usize, count: usize) -> &[u8]
    ensures { result.now ≡ part tree.now at count }
{
    let start = at.min(tree.len());
    let end = start + count.min(tree.len() - start);
    &tree[start..end]
}

// Is a name one of the names before it, the first of which begins at `from`?
fn among(tree: &[u8], name: &[u8], from: usize, count: u32) -> bool
    requires { names_end count tree.now from ≤ length tree.now }
    ensures { result ≡ among_names name.now (names_from count tree.now from) }
{
    let mut at = from;
    for _ in 0..count {
        let width = usize::from(tree[at]);
        let start = at + 1;
        if same(name, bytes_at(tree, start, width)) {
            return true;
        }
        at = start + width;
    }
    false
}

// A number by which most names are told apart at once: equal names have the same.
fn hash(name: &[u8]) -> u32
    ensures { result ≡ hash_of name.now }
{
    let mut h = 0;
    for &byte in name {
        h = (h * 367 + u32::from(byte)) % 8388608;
    }
    h
}

// Was a name of that number marked, as far as the cells tell?
#[tactic(auto, unfolding(crate::specs::Names::met_by))]
fn met(cells: &[u16; 8192], h: u32) -> bool
    ensures { result ≡ met_by cells.now h }
{
    let cell = u32::from(cells[(h % 8192) as usize]);
    cell == 65535 || cell == h / 8192 % 32768 + 1
}

// A cell holds 0, the mark of one number, or 65535 for several.
fn mark(cells: &mut [u16; 8192], h: u32)
    ensures { Marks cells.old h cells.new }
{
    let i = (h % 8192) as usize;
    if cells[i] == 0 {
        cells[i] = (h / 8192 % 32768 + 1) as u16;
    } else {
        cells[i] = 65535;
    }
}

// What `among` says, which looks only where a name of the same number was met. The name is marked.
fn known(tree: &[u8], cells: &mut [u16; 8192], name: &[u8], from: usize, count: u32) -> bool
    requires { (names_end count tree.now from ≤ length tree.now) × Marked cells.old (names_from count tree.now from) }
    ensures { Knows (names_from count tree.now from) name.now result cells.new }
{
    let h = hash(name);
    if met(cells, h) {
        return among(tree, name, from, count);
    }
    mark(cells, h);
    false
}

// One name more at `at`, behind `count` names of which the first begins at `from`.
#[tactic(auto, using(crate::proofs::Names::name_read))]
fn next_name(
    tree: &[u8],
    cells: &mut [u16; 8192],
    from: usize,
    count: u32,
    at: usize,
) -> Result<usize, Refusal>
    requires { (names_end count tree.now from ≡ at) × Marked cells.old (names_from count tree.now from) }
    ensures { OneMore count tree.now from at result × Noted count tree.now from result cells.new }
{
    let (length, start) = number(tree, at)?;
    if length == 0 || 64 < length {
        return Err(Reason::BadName.at(at));
    }
    let next = raw(tree, start, length)?;
    let name = bytes_at(tree, start, length as usize);
    if known(tree, cells, name, from, count) {
        return Err(Reason::BadName.at(start));
    }
    Ok(next)
}

// So many names, the first of which begins at `at`.
pub fn name_table(tree: &[u8], count: u32, at: usize) -> Result<usize, Refusal>
    ensures { Tables count tree.now at result }
{
    let mut cells = [0; 8192];
    let mut next = at;
    for done in 0..count {
        next = next_name(tree, &mut cells, at, done, next)?;
    }
    Ok(next)
}
