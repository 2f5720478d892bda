// The source map: for the bytes at each place, the scope and the span of the source they came from, under the Rust's names. A
// map lives in lent memory of 16,385 words: how many entries there are, and then the entries in the order of adding, four words
// each; all zero is the empty map. So to add one entry writes one entry. A call on memory that is no sound map is refused (1),
// and a refused call changes nothing.
#![tactic(auto)]

ghost use Rattle.std.specs.Prelude.{true, ◌≡◌, ◌+◌, ◌*◌, ◌≤◌, length};
ghost use Rattle.refusals.specs.Answer.{outcome, pick};
ghost use Rattle.refusals.specs.Memory.{over};
ghost use Rattle.refusals.specs.Says.{says};
ghost use Rattle.source_map.specs.Entry.{entry_at, words_of, in_range, holds, moved};
ghost use Rattle.source_map.specs.SourceMap.{shaped, sound, entries, stored, map_after};
ghost use Rattle.source_map.specs.SourceMap.{count, entry, clear, add, address_to_offset, moved_all, move_offsets};

use refusals::Refusal;

// How many words a map's memory has: the count, and four for each of 4,096 entries.
pub const WORDS: usize = 16385;

// How many entries a map holds.
pub const CAPACITY: usize = 4096;

// How many words an entry has.
const WIDTH: usize = 4;

// The greatest scope.
const LAST_SCOPE: u32 = 1023;

// The greatest place, and the greatest length.
const SIZE: u32 = 65536;

// The bytes from pc on, len of them, came from this span of the source, in this scope.
#[derive(Clone, Copy, Debug, PartialEq, Eq)]
pub struct Entry {
    pub scope: u32,
    pub span: u32,
    pub pc: u32,
    pub len: u32,
}

// Forgets all entries.
#[tactic(auto, using(crate::proofs::Laws::stored_none))]
pub fn clear(map: &mut [u32]) -> Result<(), Refusal>
    ensures { (says result ≡ outcome (clear map.old)) × (map.new ≡ map_after map.old (clear map.old)) }
{
    if !is_sound(map) {
        return Err(Refusal::Argument);
    }
    map[0] = 0;
    Ok(())
}

// How many entries there are.
pub fn len(map: &[u32]) -> Result<usize, Refusal>
    ensures { says result ≡ count map.now }
{
    if !is_sound(map) {
        return Err(Refusal::Argument);
    }
    Ok(map[0] as usize)
}

// The entry that was added as number `index`, from 0.
pub fn entry_at(map: &[u32], index: usize) -> Result<Entry, Refusal>
    ensures { says result ≡ entry map.now index }
{
    if is_sound(map) && index < map[0] as usize {
        Ok(read_entry(map, index))
    } else {
        Err(Refusal::Argument)
    }
}

// Adds an entry behind the others.
#[tactic(auto, using(crate::proofs::Laws::add_stored))]
pub fn add(map: &mut [u32], offset: Entry) -> Result<(), Refusal>
    ensures { (says result ≡ outcome (add map.old offset)) × (map.new ≡ map_after map.old (add map.old offset)) }
{
    if !is_sound(map) || !is_in_range(offset) {
        return Err(Refusal::Argument);
    }
    let count = map[0];
    if CAPACITY <= count as usize {
        return Err(Refusal::NoRoom);
    }
    write_entry(map, count as usize, offset);
    map[0] = count + 1;
    Ok(())
}

// The first added entry whose bytes hold the address. One pass: it goes from the last entry to the first, so that the number
// that stays is the first's (or the count, if none does), and tests on its way that the map is sound.
pub fn address_to_offset(map: &[u32], pc: u32) -> Result<Option<Entry>, Refusal>
    ensures { says result ≡ address_to_offset map.now pc }
{
    if !has_shape(map) {
        return Err(Refusal::Argument);
    }
    let count = map[0] as usize;
    let mut first = count;
    for i in (0..count).rev() {
        let offset = read_entry(map, i);
        if !is_in_range(offset) {
            return Err(Refusal::Argument);
        }
        first = nearer(offset, pc, i, first);
    }
    if first < count {
        Ok(Some(read_entry(map, first)))
    } else {
        Ok(None)
    }
}

// Gives every entry of one scope another scope and another span.
pub fn move_offsets(map: &mut [u32], from: u32, to: u32, span: u32) -> Result<(), Refusal>
    ensures { (says result ≡ outcome (move_offsets map.old from to span))
        × (map.new ≡ map_after map.old (move_offsets map.old from to span)) }
{
    if !is_sound(map) || LAST_SCOPE < from || LAST_SCOPE < to {
        return Err(Refusal::Argument);
    }
    move_all(map, from, to, span);
    Ok(())
}

// Whether the memory has the length of a map, and a count that it has room for.
fn has_shape(map: &[u32]) -> bool
    ensures { result ≡ shaped map.now }
{
    map.len() == WORDS && map[0] as usize <= CAPACITY
}

// Whether the memory is a map: its shape, and every entry in range.
#[tactic(auto, using(crate::proofs::Loops::rest_all, crate::proofs::Loops::good_entry))]
fn is_sound(map: &[u32]) -> bool
    ensures { result ≡ sound map.now }
{
    if !has_shape(map) {
        return false;
    }
    let count = map[0] as usize;
    for i in 0..count {
        if !is_in_range(read_entry(map, i)) {
            return false;
        }
    }
    true
}

// Whether scope, place and length are in range.
fn is_in_range(offset: Entry) -> bool
    ensures { result ≡ in_range offset }
{
    offset.scope <= LAST_SCOPE && offset.pc <= SIZE && offset.len <= SIZE
}

// The number i if the entry's bytes hold the address, else the other.
fn nearer(offset: Entry, pc: u32, i: usize, other: usize) -> usize
    ensures { result ≡ pick (holds pc offset) i other }
{
    if pc < offset.pc {
        return other;
    }
    if pc - offset.pc < offset.len {
        i
    } else {
        other
    }
}

// The entry with the new scope and span, if it is of that scope.
#[tactic(auto, unfolding(crate::specs::Entry::moved))]
fn renamed(offset: Entry, from: u32, to: u32, span: u32) -> Entry
    ensures { result ≡ moved from to span offset }
{
    if offset.scope == from {
        Entry {
            scope: to,
            span,
            ..offset
        }
    } else {
        offset
    }
}

// Entry i of the memory.
#[tactic(auto, unfolding(crate::specs::Entry::entry_at))]
fn read_entry(map: &[u32], i: usize) -> Entry
    requires { 5 + 4 * i ≤ length map.now }
    ensures { result ≡ entry_at map.now i }
{
    let at = 1 + WIDTH * i;
    Entry {
        scope: map[at],
        span: map[at + 1],
        pc: map[at + 2],
        len: map[at + 3],
    }
}

// Writes entry i of the memory.
#[tactic(auto, using(crate::proofs::Words::four_stores))]
fn write_entry(map: &mut [u32], i: usize, offset: Entry)
    requires { 5 + 4 * i ≤ length map.old }
    ensures { map.new ≡ over map.old (1 + 4 * i) (words_of offset) }
{
    let at = 1 + WIDTH * i;
    map[at] = offset.scope;
    map[at + 1] = offset.span;
    map[at + 2] = offset.pc;
    map[at + 3] = offset.len;
}

// Moves every entry of a sound map.
fn move_all(map: &mut [u32], from: u32, to: u32, span: u32)
    requires { shaped map.old ≡ true }
    ensures { map.new ≡ stored map.old (moved_all from to span (entries map.old)) }
{
    let count = map[0] as usize;
    for i in 0..count {
        let offset = read_entry(map, i);
        write_entry(map, i, renamed(offset, from, to, span));
    }
}
