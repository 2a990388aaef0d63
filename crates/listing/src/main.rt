// Reads a tree from standard input and lists what the scoper answers: lengths, skipped uses, depths; or the refusal.
#![tactic(auto)]

use fields::number::number;
use input::read_full;
use scoper::Scoped;
use std::io;
use tree::script::lay_out;

fn list_skips(rt: &impl Print, list: &[u32], records: usize) -> io::Result<()> {
    let (pairs, _) = list.as_chunks::<2>();
    for &[used, declared] in pairs.iter().take(records) {
        println!(rt; "skip {used} {declared}")?;
    }
    Ok(())
}

// 0 none, 1 poisoned, 2 + d.
fn list_depth(rt: &impl Print, declaration: u32, depth: u32) -> io::Result<()> {
    match depth {
        0 => println!(rt; "depth {declaration} none"),
        1 => println!(rt; "depth {declaration} poisoned"),
        _ => println!(rt; "depth {declaration} {}", depth - 2),
    }
}

fn list_depths(rt: &impl Print, answer: &[u8]) -> io::Result<()> {
    let Ok(layout) = lay_out(answer, &mut [0]) else {
        return Ok(());
    };
    let mut at = layout.depths;
    for declaration in 0..layout.count {
        let Ok((depth, next)) = number(answer, at) else {
            return Ok(());
        };
        list_depth(rt, declaration, depth)?;
        at = next;
    }
    Ok(())
}

fn list_all(
    rt: &impl Print,
    tree: &[u8],
    answer: &mut [u8],
    list: &mut [u32],
    work: &mut [u32],
) -> io::Result<()> {
    match scoper::analyze(tree, answer, list, work) {
        Ok(Scoped { length, records }) => {
            println!(rt; "tree {length} skipped {records}")?;
            list_skips(rt, list, records)?;
            list_depths(rt, answer)
        }
        Err(refusal) => println!(rt; "{refusal}"),
    }
}

fn main(rt: HostRuntime) -> io::Result<()> {
    // One byte more than a tree may have, so that a longer one is seen to be too long.
    let mut buffer = [0; 65536];
    let count = read_full(&mut rt.stdin(), &mut buffer)?;
    let mut answer = [0; 65535];
    let mut list = [0; 16384];
    let mut work = [0; 16384];
    list_all(&rt, &buffer[..count], &mut answer, &mut list, &mut work)
}
