// Answers, counted.
use refusals::Fault;
use std::io;

// How many numbers a call may answer, with 0 for done.
const NUMBERS: usize = 19;

// How many answers there were of each number, and how many of all were wrong.
#[derive(Clone, Copy)]
pub struct Tally {
    answers: [u64; NUMBERS],
    wrong: u64,
}

impl Tally {
    // No answers.
    pub fn new() -> Self {
        Tally {
            answers: [0; NUMBERS],
            wrong: 0,
        }
    }

    // Counts one answer more.
    pub fn count(&mut self, answer: Result<(), Fault>, is_right: bool) {
        let number = match answer {
            Ok(()) => 0,
            Err(fault) => fault.why.number() as usize,
        };
        if let Some(count) = self.answers.get_mut(number) {
            *count = count.saturating_add(1);
        }
        self.wrong = self.wrong.saturating_add(u64::from(!is_right));
    }

    // Prints the counts of a call: of all its answers, and of each refusal that there was.
    pub fn print(&self, rt: &impl Print, name: &str) -> io::Result<()> {
        let done = self.answers[0];
        let asked = self
            .answers
            .iter()
            .fold(0u64, |sum, count| sum.saturating_add(*count));
        println!(rt; "{name}: asked {asked}, done {done}, wrong {}", self.wrong)?;
        for (number, count) in self.answers.iter().enumerate().skip(1) {
            if *count != 0 {
                println!(rt; "  refused {number}: {count}")?;
            }
        }
        Ok(())
    }
}
