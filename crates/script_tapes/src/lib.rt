// The tapes of case files, which lines in hexadecimal make in lent memory: bytes, bytes so often, and labels one behind the other. Total:
// what has no room is left out.
#![tactic(auto)]

ghost use Rattle.std.specs.Prelude.{◌≡◌};
ghost use Rattle.page.specs.Page.{laid, repeated, bytes_in};
ghost use Rattle.script_tapes.specs.Tapes.{is_tape, bytes_of, label_of, labels_behind, tape_after};

use tape::LABEL;

// Lays the bytes of a text so often.
fn put_times(room: &mut [u8], begin: usize, text: &[u8], times: usize) -> usize
    ensures { (result, room.new) ≡ laid room.old begin (repeated times (bytes_in text.now)) }
{
    let mut at = begin;
    for i in 0..times {
        at = page::put_hex(room, at, text);
    }
    at
}

// Lays the bytes that a line has behind its command.
#[tactic(auto, unfolding(crate::specs::Tapes::bytes_of))]
pub fn put_bytes(room: &mut [u8], at: usize, line: &[u8]) -> usize
    ensures { (result, room.new) ≡ laid room.old at (bytes_of line.now) }
{
    if page::is_same(script::word(line, 2), b"x") {
        return put_times(
            room,
            at,
            script::words_from(line, 3),
            script::number(line, 1),
        );
    }
    page::put_hex(room, at, script::words_from(line, 1))
}

// Lays a label.
fn put_label(room: &mut [u8], at: usize, id: usize) -> usize
    ensures { (result, room.new) ≡ laid room.old at (label_of id) }
{
    page::put_all(room, at, &[LABEL, (id % 256) as u8, (id / 256 % 256) as u8])
}

// Lays labels from 1 to the last.
fn put_labels(room: &mut [u8], begin: usize, last: usize) -> usize
    ensures { (result, room.new) ≡ laid room.old begin (labels_behind 0 last) }
{
    let mut at = begin;
    for id in 1..=last {
        at = put_label(room, at, id);
    }
    at
}

// Whether a line makes a tape.
#[tactic(auto, unfolding(crate::specs::Tapes::is_tape))]
pub fn is_tape(line: &[u8]) -> bool
    ensures { result ≡ is_tape line.now }
{
    script::is_command(line, b"tape")
        || script::is_command(line, b"more")
        || script::is_command(line, b"labels")
}

// Makes a tape, as a line says: `tape` begins it anew, `more` and `labels` go on behind its length.
#[tactic(auto, unfolding(crate::specs::Tapes::tape_after))]
pub fn put_tape(room: &mut [u8], length: usize, line: &[u8]) -> usize
    ensures { (result, room.new) ≡ tape_after room.old length line.now }
{
    if script::is_command(line, b"tape") {
        return put_bytes(room, 0, line);
    }
    if script::is_command(line, b"more") {
        return put_bytes(room, length, line);
    }
    if script::is_command(line, b"labels") {
        return put_labels(room, length, script::number(line, 1));
    }
    length
}
