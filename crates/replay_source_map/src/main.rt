// Answers, as the Rust would, each question of 17 bytes on standard input: an operation, and four u32. 0 is new, 1 add (scope,
// span, place, length), 2 clear, 3 move_offsets (scope, new scope, new span), 4 address_to_offset, 5 len, 6 entry (its number).
// The map is kept from question to question. An answer is a line: a number, the four numbers of an entry, `nothing` where no
// entry holds the address, `refused` where the Rust panics, and `done` for the others.
#![tactic(auto)]

use console::Console;
use refusals::Refusal;
use replay::Answers;
use source_map::Entry;
use std::io;

// How many bytes a question has.
const QUESTION: usize = 17;

fn print_refused(rt: &impl Print) -> io::Result<()> {
    print!(rt; "refused")
}

fn print_done(rt: &impl Print, answer: Result<(), Refusal>) -> io::Result<()> {
    match answer {
        Ok(()) => print!(rt; "done"),
        Err(_) => print_refused(rt),
    }
}

fn print_count(rt: &impl Print, answer: Result<usize, Refusal>) -> io::Result<()> {
    match answer {
        Ok(n) => print!(rt; "{n}"),
        Err(_) => print_refused(rt),
    }
}

fn print_entry(rt: &impl Print, entry: Entry) -> io::Result<()> {
    let Entry {
        scope,
        span,
        pc,
        len,
    } = entry;
    print!(rt; "{scope} {span} {pc} {len}")
}

fn print_one(rt: &impl Print, answer: Result<Entry, Refusal>) -> io::Result<()> {
    match answer {
        Ok(entry) => print_entry(rt, entry),
        Err(_) => print_refused(rt),
    }
}

fn print_found(rt: &impl Print, answer: Result<Option<Entry>, Refusal>) -> io::Result<()> {
    match answer {
        Ok(Some(entry)) => print_entry(rt, entry),
        Ok(None) => print!(rt; "nothing"),
        Err(_) => print_refused(rt),
    }
}

// The number of four bytes.
fn number_at(question: &[u8], at: usize) -> u32 {
    (little::u64_at(question, at) % 0x1_0000_0000) as u32
}

// Every script has the same map, which `new` only clears.
#[derive(Drop)]
struct Replay {
    map: [u32; source_map::WORDS],
}

impl Answers for Replay {
    // Prints the answer to a question.
    fn answer(&mut self, rt: &impl Print, question: &[u8]) -> io::Result<()> {
        let map = &mut self.map;
        let a = number_at(question, 1);
        let b = number_at(question, 5);
        let c = number_at(question, 9);
        let added = Entry {
            scope: a,
            span: b,
            pc: c,
            len: number_at(question, 13),
        };
        match little::u8_at(question, 0) {
            0 | 2 => print_done(rt, source_map::clear(map)),
            1 => print_done(rt, source_map::add(map, added)),
            3 => print_done(rt, source_map::move_offsets(map, a, b, c)),
            4 => print_found(rt, source_map::address_to_offset(map, a)),
            5 => print_count(rt, source_map::len(map)),
            _ => print_one(rt, source_map::entry_at(map, a as usize)),
        }
    }
}

fn main() {
    let mut replay = Replay {
        map: [0; source_map::WORDS],
    };
    let _ = replay::answer_each(&Console, &mut [0u8; QUESTION], &mut replay);
}
