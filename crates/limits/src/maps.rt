// Source maps.
use crate::answers::number_of;
use crate::show::{print, print_all, print_name, tell};
use refusals::Refusal;
use source_map::Entry;

// How many words a map has, and one more; how many entries, and how many scopes.
pub const WORDS: usize = 16385;

const MOST: usize = 16386;

const ENTRIES: u32 = 4096;

const SCOPES: u32 = 1024;

// The u32 of a word.
fn number(line: &[u8], index: usize) -> u32 {
    (script::number(line, index) % 0x1_0000_0000) as u32
}

// What every call answers on memory of so many words, up to 16,386, all zero but the count: WORDS COUNT NAME.
pub fn memory(line: &[u8]) {
    let mut memory = [0u32; MOST];
    memory[0] = number(line, 2);
    let words = script::number(line, 1);
    if MOST < words {
        return tell(line);
    }
    print_map(script::words_from(line, 3), &mut memory[..words]);
}

// What every call answers on a map with this one entry: SCOPE PLACE LENGTH NAME.
pub fn entry(line: &[u8]) {
    let mut memory = [0u32; WORDS];
    memory[0] = 1;
    memory[1] = number(line, 1);
    memory[2] = u32::MAX;
    memory[3] = number(line, 2);
    memory[4] = number(line, 3);
    print_map(script::words_from(line, 4), &mut memory);
}

// An entry at 0 of a scope.
fn small(scope: u32) -> Entry {
    Entry {
        scope,
        span: 0,
        pc: 0,
        len: 1,
    }
}

// Prints what every call answers on one map; the last that is done clears it.
fn print_map(name: &[u8], map: &mut [u32]) {
    print_name(name);
    let answers = [
        number_of(source_map::len(map)),
        number_of(source_map::entry_at(map, 0)),
        number_of(source_map::address_to_offset(map, 0)),
        number_of(source_map::add(map, small(0))),
        number_of(source_map::move_offsets(map, 0, 1, 2)),
        number_of(source_map::clear(map)),
    ];
    print_all(
        b"  len\n  entry 0\n  address\n  add\n  move\n  clear",
        &answers,
    );
}

// Adds entries until the map is full: NAME.
pub fn fill(line: &[u8], map: &mut [u32]) {
    print(script::words_from(line, 1), number_of(filled(map)));
}

// Adds 4,096 entries, or as many as there is room for.
fn filled(map: &mut [u32]) -> Result<(), Refusal> {
    for i in 0..ENTRIES {
        source_map::add(map, wide(i))?;
    }
    Ok(())
}

// The entry of that number: one of 16 bytes behind the other, the scopes in turn.
fn wide(i: u32) -> Entry {
    Entry {
        scope: i % SCOPES,
        span: 0,
        pc: 16 * (i % ENTRIES),
        len: 16,
    }
}

// An entry more: SCOPE NAME.
pub fn add(line: &[u8], map: &mut [u32]) {
    print(
        script::words_from(line, 2),
        number_of(source_map::add(map, small(number(line, 1)))),
    );
}

// An entry: INDEX NAME.
pub fn at(line: &[u8], map: &[u32]) {
    print(
        script::words_from(line, 2),
        number_of(source_map::entry_at(map, script::number(line, 1))),
    );
}

// The entries of one scope moved to another: FROM TO NAME.
pub fn shift(line: &[u8], map: &mut [u32]) {
    let answer = source_map::move_offsets(map, number(line, 1), number(line, 2), 0);
    print(script::words_from(line, 3), number_of(answer));
}
