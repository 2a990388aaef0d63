// Replays whole answers that the original gave. A case is eight numbers of four bytes each, low byte first: the tree's
// length; bytes of answer, words of list and words of work memory to lend; refusal and place, or 0 and 0; the answer's
// length and the number of records. Behind them stand the tree (unless it is too long: then any bytes will do), the
// answer and the list. All that is lent holds garbage before.
// Prints a line for each case that differs, then how many cases there were and how many differed.
#![tactic(auto)]

use fields::refusal::Refusal;
use input::read_full;
use memory::bytes::byte;
use memory::words::word;
use scoper::Scoped;
use std::io::Read;
use std::{fmt, io};

// A case's numbers.
#[derive(Clone, Copy)]
struct Case {
    tree: usize,
    answer: usize,
    list: usize,
    work: usize,
    number: u32,
    place: usize,
    length: usize,
    records: usize,
}

impl Case {
    fn of(head: &[u8; 32]) -> Case {
        Case {
            tree: four(head, 0) as usize,
            answer: four(head, 1) as usize,
            list: four(head, 2) as usize,
            work: four(head, 3) as usize,
            number: four(head, 4),
            place: four(head, 5) as usize,
            length: four(head, 6) as usize,
            records: four(head, 7) as usize,
        }
    }

    // How many records stand in the input: none where there are more than any list has room for.
    fn listed(self) -> usize {
        if self.records < 1048576 {
            self.records
        } else {
            0
        }
    }
}

// A number of four bytes. No number of a case reaches 2^24, so the fourth is not looked at.
fn four(bytes: &[u8], k: usize) -> u32 {
    let (numbers, _) = bytes.as_chunks::<4>();
    match numbers.get(k) {
        Some(&[a, b, c, _]) => u32::from_le_bytes([a, b, c, 0]),
        None => 0,
    }
}

// What of a case differs.
#[derive(Clone, Copy)]
enum Part {
    Number,
    Place,
    Length,
    Records,
    Answer,
    Tail,
    List,
    Work,
}

impl fmt::Display for Part {
    fn fmt<W: fmt::Write>(&self, f: &mut fmt::Formatter<W>) -> fmt::Result {
        f.write_str(match self {
            Part::Number => "refusal",
            Part::Place => "place",
            Part::Length => "length of the answer",
            Part::Records => "number of records",
            Part::Answer => "answer",
            Part::Tail => "not zero behind answer or list",
            Part::List => "list",
            Part::Work => "work memory not zero",
        })
    }
}

// Memory for a case: what is lent, and what the original gave.
#[derive(Drop)]
struct Memory {
    tree: [u8; 65536],
    answer: [u8; 65536],
    list: [u32; 16384],
    work: [u32; 16400],
    wanted: [u8; 65536],
    listed: [u8; 65536],
}

impl Memory {
    // Reads the rest of a case. A tree that is too long is not there to be read.
    fn read(&mut self, input: &mut impl Read, case: Case) -> io::Result<()> {
        if case.tree < self.tree.len() {
            read_full(input, first(&mut self.tree, case.tree))?;
        }
        read_full(input, first(&mut self.wanted, case.length))?;
        read_full(
            input,
            first(&mut self.listed, case.listed().saturating_mul(8)),
        )?;
        Ok(())
    }

    // The call, in exactly the memory that the case lends.
    fn replay(&mut self, case: Case) -> Result<(), Part> {
        let tree = first(&mut self.tree, case.tree);
        let answer = first(&mut self.answer, case.answer);
        let list = first(&mut self.list, case.list);
        let work = first(&mut self.work, case.work);
        answer.fill(0xAA);
        list.fill(0xAAAAAAAA);
        work.fill(0xAAAAAAAA);
        let scoped = scoper::analyze(tree, answer, list, work);
        told(case, scoped)?;
        left(case, answer, list, work, &self.wanted, &self.listed)
    }
}

// The first `count`, or all that there are.
fn first<T>(memory: &mut [T], count: usize) -> &mut [T] {
    let count = count.min(memory.len());
    &mut memory[..count]
}

// What the call told.
fn told(case: Case, scoped: Result<Scoped, Refusal>) -> Result<(), Part> {
    match scoped {
        Err(refusal) if refusal.reason.number() != case.number => Err(Part::Number),
        Err(refusal) if refusal.place != case.place => Err(Part::Place),
        Ok(_) if case.number != 0 => Err(Part::Number),
        Ok(scoped) if scoped.length != case.length => Err(Part::Length),
        Ok(scoped) if scoped.records != case.records => Err(Part::Records),
        _ => Ok(()),
    }
}

// What the call left behind where it told what it should.
fn left(
    case: Case,
    answer: &[u8],
    list: &[u32],
    work: &[u32],
    wanted: &[u8],
    listed: &[u8],
) -> Result<(), Part> {
    if (0..case.length).any(|i| byte(answer, i) != byte(wanted, i)) {
        return Err(Part::Answer);
    }
    if answer.iter().skip(case.length).any(|&byte| byte != 0) {
        return Err(Part::Tail);
    }
    let words = case.listed().saturating_mul(2);
    if (0..words).any(|k| word(list, k) != four(listed, k)) {
        return Err(Part::List);
    }
    if list.iter().skip(words).any(|&word| word != 0) {
        return Err(Part::Tail);
    }
    if work.iter().any(|&word| word != 0) {
        return Err(Part::Work);
    }
    Ok(())
}

fn main(rt: HostRuntime) -> io::Result<()> {
    let mut input = rt.stdin();
    let mut head = [0; 32];
    let mut memory = Memory {
        tree: [0; 65536],
        answer: [0; 65536],
        list: [0; 16384],
        work: [0; 16400],
        wanted: [0; 65536],
        listed: [0; 65536],
    };
    let mut cases = 0u32;
    let mut differ = 0u32;
    for _ in 0..10000000u32 {
        if read_full(&mut input, &mut head)? < head.len() {
            break;
        }
        let case = Case::of(&head);
        memory.read(&mut input, case)?;
        cases = cases.saturating_add(1);
        if let Err(part) = memory.replay(case) {
            println!(rt; "case {cases} differs: {part}")?;
            differ = differ.saturating_add(1);
        }
    }
    println!(rt; "{cases} cases, {differ} differ")
}
