// Document 01's number of an answer, 0 where a call was done.
use refusals::Refusal;

// The number of an answer.
pub fn number_of<T: Copy>(answer: Result<T, Refusal>) -> u8 {
    match answer {
        Ok(_) => 0,
        Err(why) => why.number(),
    }
}
