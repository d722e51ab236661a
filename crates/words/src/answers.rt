// The word of an answer: its number, whether it is present, and two lengths or values.
ghost use Rattle.std.specs.Prelude.{◌≡◌, true, cond, ◌<◌, ◌^◌};
ghost use Rattle.paper.specs.Answers.{Carried};
ghost use Rattle.words.specs.Boundary.{word, word_with, checked_word, found_word, document_word, row_word, found_has_room, document_has_room, row_has_room};

use paper::{Child, DocumentAnswer, Refusal, RowAnswer, Unwritten};

// The parts of an answer in one word: the number, whether it is present, and two lengths or values of 24 bits.
pub fn word(number: u8, present: bool, first: usize, second: usize) -> u64
    requires { (first < 2 ^ 24) × (second < 2 ^ 24) }
    ensures { result ≡ word number (cond present 1 0) first second }
{
    let low = u64::from(number) + 256 * u64::from(present);
    low + 65536 * (first as u64) + 1099511627776 * (second as u64)
}

// A refusal carries its number and zeros.
pub fn refused_word(refusal: Refusal) -> u64
    ensures { result ≡ word_with 2 (Carried.refusal refusal) }
{
    word(u8::from(refusal), false, 0, 0)
}

// The word of what check answers.
pub fn checked_word(answer: Result<(), Refusal>) -> u64
    ensures { result ≡ checked_word answer }
{
    match answer {
        Ok(()) => word(0, true, 0, 0),
        Err(refusal) => refused_word(refusal),
    }
}

// The word of what find answers: the start and the length in the value.
pub fn found_word(answer: Result<Option<Child>, Refusal>) -> u64
    requires { found_has_room answer ≡ true }
    ensures { result ≡ found_word answer }
{
    match answer {
        Ok(Some(part)) => word(0, true, part.start, part.size),
        Ok(None) => word(0, false, 0, 0),
        Err(refusal) => refused_word(refusal),
    }
}

// The word of what normalise and rebuild answer: the lengths written, or the lengths needed with 9.
pub fn document_word(answer: DocumentAnswer) -> u64
    requires { document_has_room answer ≡ true }
    ensures { result ≡ document_word answer }
{
    match answer {
        Ok(written) => word(0, true, written.metadata, written.value),
        Err(Unwritten::Short(needed)) => word(9, false, needed.metadata, needed.value),
        Err(Unwritten::Refused(refusal)) => refused_word(refusal),
    }
}

// The word of what shred answers: the length written, or the length needed with 9.
pub fn row_word(answer: RowAnswer) -> u64
    requires { row_has_room answer ≡ true }
    ensures { result ≡ row_word answer }
{
    match answer {
        Ok(length) => word(0, true, length, 0),
        Err(Unwritten::Short(length)) => word(9, false, length, 0),
        Err(Unwritten::Refused(refusal)) => refused_word(refusal),
    }
}
