// How questions and answers are printed.
use descriptors::STDOUT_FILENO;

// Prints a question and the number of its answer.
pub fn print(question: &[u8], number: u8) {
    io::write_all(STDOUT_FILENO, question);
    io::write_all(STDOUT_FILENO, b": ");
    io::print_decimal(STDOUT_FILENO, number as u64);
    io::write_all(STDOUT_FILENO, b"\n");
}

// Prints questions, one in each line, and the numbers of their answers.
pub fn print_all(questions: &[u8], numbers: &[u8]) {
    for (i, number) in numbers.iter().enumerate() {
        print(script::line(questions, i), *number);
    }
}

// Prints a name.
pub fn print_name(name: &[u8]) {
    io::write_all(STDOUT_FILENO, name);
    io::write_all(STDOUT_FILENO, b"\n");
}

// Prints a line that is not known.
pub fn tell(line: &[u8]) {
    io::write_all(STDOUT_FILENO, b"not known: ");
    print_name(line);
}
