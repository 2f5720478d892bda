// Every value of one byte, checked in turn.
use crate::hand::Hand;
use crate::show;
use refusals::Refusal;
use std::io;

// Checks what is handed in with each value of a byte, which is then as it was; of the refusals, those are counted that the bytes at 0
// differ: INITIAL START AT NAME.
pub fn check(rt: &impl Print, line: &[u8], tape: &[u8], hand: &mut Hand) -> io::Result<()> {
    let at = script::number(line, 3);
    let before = hand.byte(at);
    let mut accepted = 0usize;
    let mut differing = 0usize;
    for value in 0..=u8::MAX {
        hand.set_byte(at, value);
        match show::answer(line, tape, hand) {
            Ok(()) => accepted = accepted.saturating_add(1),
            Err(fault) if fault == Refusal::BytesDiffer.at(0) => {
                differing = differing.saturating_add(1);
            }
            Err(_) => (),
        }
    }
    hand.set_byte(at, before);
    cases::print_name(rt, script::words_from(line, 4))?;
    println!(rt; "accepted {accepted}, refused 18 at 0 {differing}")
}
