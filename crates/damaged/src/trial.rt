// Sound expressions and tapes, whole, cut at every offset, and with each byte changed; each goes to all three calls.
use crate::judge::Damage;
use crate::tally::Tally;
use crate::{ROOM, dice, judge};
use std::io;
use symbols::SymbolTable;
use tape::FLAGS;

// Where the generator begins.
const SEED: u64 = 6502;

// The scope and the current place of an evaluation.
const SCOPE: u16 = 1;

const PLACE: i64 = -3;

// Whether what is damaged is a tape; the generator's number; what names mean; and the answers of each call so far.
#[derive(Clone, Copy)]
pub struct Trial {
    is_tape: bool,
    seed: u64,
    table: SymbolTable,
    form: Tally,
    expression: Tally,
    value: Tally,
}

// A table with three names: 1 with a number, below it 2 with one and 3 without.
fn names() -> SymbolTable {
    let mut table = SymbolTable::new();
    for (parent, id, value) in [(0, 1, Some(258)), (1, 2, Some(-1)), (1, 3, None)] {
        if let Ok(inserted) = table.insert(parent, id, value) {
            table = inserted.table;
        }
    }
    table
}

impl Trial {
    // Before all answers.
    pub fn new() -> Self {
        Trial {
            is_tape: false,
            seed: SEED,
            table: names(),
            form: Tally::new(),
            expression: Tally::new(),
            value: Tally::new(),
        }
    }

    // Asks all three calls about some bytes.
    fn ask(&mut self, bytes: &[u8], damage: Damage) {
        let len = bytes.len();
        let form = form::form(bytes);
        let alone = form::expression_form(bytes);
        let value = evaluator::evaluate(bytes, self.table, SCOPE, PLACE).map(|_| ());
        let may_own = judge::may_after(damage, if self.is_tape { form } else { alone });
        let may_form = judge::may_form(form, len) && (may_own || !self.is_tape);
        let may_alone = judge::may_expression(alone, len) && (may_own || self.is_tape);
        self.seed = dice::next(self.seed);
        self.form.count(form, may_form);
        self.expression.count(alone, may_alone);
        self.value.count(value, judge::may_value(alone, value));
    }

    // Asks about the first so many bytes, for every count.
    fn cut(&mut self, bytes: &[u8]) {
        for count in 0..bytes.len() {
            self.ask(&bytes[..count], Damage::Cut);
        }
    }

    // Asks with another byte at an offset, and puts the old one back.
    fn change(&mut self, bytes: &mut [u8], at: usize, byte: u8) {
        let Some(old) = bytes.get(at).copied() else {
            return;
        };
        bytes[at] = byte;
        self.ask(bytes, Damage::Changed(at));
        bytes[at] = old;
    }

    // Asks with other bytes at an offset: the one above and the one below, flags, any kind and any byte.
    fn change_each(&mut self, bytes: &mut [u8], at: usize) {
        let old = little::u8_at(bytes, at);
        self.change(bytes, at, old.wrapping_add(1));
        self.change(bytes, at, old.wrapping_sub(1));
        self.change(bytes, at, FLAGS);
        self.change(bytes, at, dice::kind(self.seed));
        self.change(bytes, at, dice::dice(self.seed));
    }

    // Asks about something sound, and about it damaged.
    pub fn damage(&mut self, sound: &[u8], is_tape: bool) {
        self.is_tape = is_tape;
        let mut room = [0u8; ROOM];
        let len = sound.len().min(ROOM);
        let bytes = &mut room[..len];
        bytes.copy_from_slice(&sound[..len]);
        self.ask(bytes, Damage::Nothing);
        self.cut(bytes);
        for at in 0..len {
            self.change_each(bytes, at);
        }
    }

    // Prints the counts.
    pub fn print(&self, rt: &impl Print) -> io::Result<()> {
        self.form.print(rt, "form")?;
        self.expression.print(rt, "expression_form")?;
        self.value.print(rt, "evaluate")
    }
}
