// Case files: text of which each line is a command and its words. A program asks for a line by its number, and for its words. Total:
// what is not there is empty, or 0.
#![tactic(auto)]

ghost use Rattle.std.specs.Prelude.{◌≡◌, ◌≤◌, eqb, position, length, drop};
ghost use Rattle.script.specs.Parts.{until, from, starts};
ghost use Rattle.script.specs.Words.{lines_in, line_of, words_in, word_of, words_from};
ghost use Rattle.script.specs.Numbers.{with_digit, with_letter, number_in, number_of};
ghost use Rattle.script.specs.Commands.{is_command, command_of, is_silent};

// What stands between two lines, and between two words.
const LINE_FEED: u8 = b'\n';

const BLANK: u8 = b' ';

// What a comment begins with.
const COMMENT: u8 = b'#';

// How many parts begin in a text: one at its first byte, and one at each byte behind a mark.
fn parts(text: &[u8], mark: u8) -> usize
    ensures { result ≡ starts mark mark text.now }
{
    let mut count = 0;
    let mut before = mark;
    for byte in text {
        count += usize::from(before == mark);
        before = *byte;
    }
    count
}

// The offset of the first mark.
fn first(text: &[u8], mark: u8) -> Option<usize>
    ensures { result ≡ position (λ c. eqb c mark) text.now }
{
    text.iter().position(|byte| *byte == mark)
}

// What stands before the first mark.
fn before(text: &[u8], mark: u8) -> &[u8]
    ensures { result.now ≡ until mark text.now }
{
    match first(text, mark) {
        None => text,
        Some(at) => &text[..at],
    }
}

// The offset behind the first mark from an offset on; the end where there is none.
fn next(text: &[u8], mark: u8, begin: usize) -> usize
    requires { begin ≤ length text.now }
    ensures { (result ≤ length text.now) × (drop result text.now ≡ from mark 1 (drop begin text.now)) }
{
    for at in begin..text.len() {
        if text[at] == mark {
            return at + 1;
        }
    }
    text.len()
}

// What stands behind so many marks.
fn behind(text: &[u8], mark: u8, count: usize) -> &[u8]
    ensures { result.now ≡ from mark count text.now }
{
    let mut at = 0;
    for i in 0..count {
        at = next(text, mark, at);
    }
    &text[at..]
}

// How many lines a text has.
pub fn lines(text: &[u8]) -> usize
    ensures { result ≡ lines_in text.now }
{
    parts(text, LINE_FEED)
}

// The line of that number, from 0 on.
pub fn line(text: &[u8], number: usize) -> &[u8]
    ensures { result.now ≡ line_of number text.now }
{
    before(behind(text, LINE_FEED, number), LINE_FEED)
}

// How many words a line has.
pub fn words(line: &[u8]) -> usize
    ensures { result ≡ words_in line.now }
{
    parts(line, BLANK)
}

// The word of that number, from 0 on.
pub fn word(line: &[u8], number: usize) -> &[u8]
    ensures { result.now ≡ word_of number line.now }
{
    before(behind(line, BLANK, number), BLANK)
}

// The words from that number on.
pub fn words_from(line: &[u8], number: usize) -> &[u8]
    ensures { result.now ≡ words_from number line.now }
{
    behind(line, BLANK, number)
}

// A number with one digit more; the greatest where that is greater.
fn with_digit(number: usize, digit: usize) -> usize
    ensures { result ≡ with_digit number digit }
{
    number.saturating_mul(10).saturating_add(digit)
}

// A number with one letter more; what is no digit is left out.
fn with_letter(number: usize, letter: u8) -> usize
    ensures { result ≡ with_letter number letter }
{
    match letter {
        b'0'..=b'9' => with_digit(number, (letter - b'0') as usize),
        _ => number,
    }
}

// The number of a word.
fn number_in(word: &[u8]) -> usize
    ensures { result ≡ number_in 0 word.now }
{
    let mut number = 0;
    for letter in word {
        number = with_letter(number, *letter);
    }
    number
}

// The number that the word of that number has.
pub fn number(line: &[u8], index: usize) -> usize
    ensures { result ≡ number_of index line.now }
{
    number_in(word(line, index))
}

// Whether a line has this command.
pub fn is_command(line: &[u8], command: &[u8]) -> bool
    ensures { result ≡ is_command line.now command.now }
{
    page::is_same(word(line, 0), command)
}

// The number of a line's command among the words of `names`, from 0 on; how many they are where it is none.
pub fn command(line: &[u8], names: &[u8]) -> usize
    ensures { result ≡ command_of line.now names.now }
{
    let count = words(names);
    for i in 0..count {
        if is_command(line, word(names, i)) {
            return i;
        }
    }
    count
}

// Whether a line asks for nothing: it is empty or a comment.
pub fn is_silent(line: &[u8]) -> bool
    ensures { result ≡ is_silent line.now }
{
    match line {
        [] => true,
        [first, ..] => *first == COMMENT,
    }
}
