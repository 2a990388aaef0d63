// Replays verdicts on trees that another reader gave. A line is a refusal's number, its place and the tree in
// hexadecimal digits, or `-` for an empty tree; a tree that passes has number 0 and place 0. A line that begins
// with `a` is about a tree that is read as an answer has it, any other about one that comes in.
// Prints a line for each case that differs, then how many cases there were and how many differed.
#![tactic(auto)]

use fields::refusal::Refusal;
use input::read_full;
use name_table::bytes_at;
use std::io;

// Where a line is read, what it says so far, and what was found.
#[derive(Clone, Copy)]
struct Replay {
    field: u32,
    number: u32,
    place: u32,
    length: usize,
    half: bool,
    answered: bool,
    high: u8,
    cases: u32,
    differ: u32,
}

impl Replay {
    const START: Replay = Replay {
        field: 0,
        number: 0,
        place: 0,
        length: 0,
        half: false,
        answered: false,
        high: 0,
        cases: 0,
        differ: 0,
    };
}

fn with_digit(n: u32, byte: u8) -> u32 {
    match byte {
        b'0'..=b'9' if n < 100000000 => n * 10 + u32::from(byte - b'0'),
        _ => n,
    }
}

fn digit(byte: u8) -> u8 {
    match byte {
        b'0'..=b'9' => byte - b'0',
        b'a'..=b'f' => byte - b'a' + 10,
        _ => 0,
    }
}

// Half a byte of the tree, the high half first.
fn with_half(r: Replay, tree: &mut [u8], byte: u8) -> Replay {
    if !r.half {
        return Replay {
            high: digit(byte),
            half: true,
            ..r
        };
    }
    let mut length = r.length;
    if length < tree.len() {
        tree[length] = r.high % 16 * 16 + digit(byte) % 16;
        length += 1;
    }
    Replay {
        length,
        half: false,
        ..r
    }
}

// A refusal's number and its place, both 0 where the tree passes.
fn told(verdict: Result<(), Refusal>) -> (u32, usize) {
    match verdict {
        Ok(()) => (0, 0),
        Err(Refusal { reason, place }) => (reason.number(), place),
    }
}

fn read(tree: &[u8], answered: bool) -> Result<(), Refusal> {
    if answered {
        tree::answered(tree)
    } else {
        tree::incoming(tree)
    }
}

// The end of a line: the tree is read, and the verdict compared.
fn compared(rt: &impl Print, r: Replay, tree: &[u8]) -> io::Result<Replay> {
    let cases = r.cases.saturating_add(1);
    let (number, place) = told(read(bytes_at(tree, 0, r.length), r.answered));
    let mut differ = r.differ;
    if number != r.number {
        println!(rt;
            "case {cases}: wanted number {}, read as {number} at {place}",
            r.number
        )?;
        differ = differ.saturating_add(1);
    } else if place != r.place as usize {
        println!(rt;
            "case {cases}: wanted place {}, read as {number} at {place}",
            r.place
        )?;
        differ = differ.saturating_add(1);
    }
    Ok(Replay {
        cases,
        differ,
        ..Replay::START
    })
}

// One byte of the text.
fn step(rt: &impl Print, r: Replay, tree: &mut [u8], byte: u8) -> io::Result<Replay> {
    let next = match (byte, r.field) {
        (b'\n', _) => compared(rt, r, tree)?,
        (b' ', _) => Replay {
            field: r.field.saturating_add(1),
            ..r
        },
        (b'a', 0) => Replay {
            answered: true,
            ..r
        },
        (_, 0) => Replay {
            number: with_digit(r.number, byte),
            ..r
        },
        (_, 1) => Replay {
            place: with_digit(r.place, byte),
            ..r
        },
        (b'-', _) => r,
        _ => with_half(r, tree, byte),
    };
    Ok(next)
}

fn main(rt: HostRuntime) -> io::Result<()> {
    let mut tree = [0; 65536];
    let mut text = [0; 4096];
    let mut r = Replay::START;
    for _ in 0..100000u32 {
        let count = read_full(&mut rt.stdin(), &mut text)?;
        for &byte in &text[..count] {
            r = step(&rt, r, &mut tree, byte)?;
        }
        if count < 4096 {
            break;
        }
    }
    println!(rt; "{} cases, {} differ", r.cases, r.differ)
}
