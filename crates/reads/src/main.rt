// Reads a tree from standard input and says whether it passes, or the refusal and its place.
#![tactic(auto)]

use input::read_full;
use std::io;

fn main(rt: HostRuntime) -> io::Result<()> {
    // One byte more than a tree may have, so that a longer one is seen to be too long.
    let mut buffer = [0; 65536];
    let count = read_full(&mut rt.stdin(), &mut buffer)?;
    match tree::incoming(&buffer[..count]) {
        Ok(()) => println!(rt; "passes"),
        Err(refusal) => println!(rt; "{refusal}"),
    }
}
