// The words of a cell: its kind, and the one or two words that it holds.
ghost use Rattle.std.specs.Prelude.{◌≡◌, true, ◌<◌};
ghost use Rattle.paper.specs.Answers.{cell_values};
ghost use Rattle.paper.specs.Words.{at};
ghost use Rattle.words.specs.Boundary.{cell_word};
ghost use Rattle.words.specs.CellParts.{first_word, second_word, has_bits, answer_has_bits};

use crate::answers::{refused_word, word};
use paper::{Cell, Refusal};

// The kind of a cell, 1 to 6.
fn kind_of(cell: Cell) -> usize
    ensures { (result ≡ at (cell_values cell) 0) × (result < 7) }
{
    match cell {
        Cell::Boolean(_) => 1,
        Cell::Integer(_) => 2,
        Cell::Float(_) | Cell::FloatNan(_) => 3,
        Cell::Double(_) | Cell::DoubleNan(_) => 4,
        Cell::Length(_) => 5,
        Cell::Uuid { .. } => 6,
    }
}

// The first word of a cell.
fn first_of(cell: Cell) -> u64
    requires { has_bits cell ≡ true }
    ensures { result ≡ at (cell_values cell) 1 }
{
    match cell {
        Cell::Boolean(yes) => u64::from(yes),
        Cell::Integer(z) => signed::unsigned(z),
        Cell::Float(x) => u64::from(x.to_bits()),
        Cell::FloatNan(bits) => u64::from(bits),
        Cell::Double(x) => x.to_bits(),
        Cell::DoubleNan(bits) => bits,
        Cell::Length(length) => length as u64,
        Cell::Uuid { first, .. } => first,
    }
}

// The second word of a cell.
fn second_of(cell: Cell) -> u64
    ensures { result ≡ at (cell_values cell) 2 }
{
    match cell {
        Cell::Uuid { second, .. } => second,
        _ => 0,
    }
}

// The answer's word: present with the kind, or the refusal.
pub fn cell_word(answer: Result<Cell, Refusal>) -> u64
    ensures { result ≡ cell_word answer }
{
    match answer {
        Ok(held) => word(0, true, kind_of(held), 0),
        Err(refusal) => refused_word(refusal),
    }
}

// The first word of the cell that was read, 0 on a refusal.
pub fn first_word(answer: Result<Cell, Refusal>) -> u64
    requires { answer_has_bits answer ≡ true }
    ensures { result ≡ first_word answer }
{
    match answer {
        Ok(held) => first_of(held),
        Err(_) => 0,
    }
}

// The second word of the cell that was read, 0 on a refusal.
pub fn second_word(answer: Result<Cell, Refusal>) -> u64
    ensures { result ≡ second_word answer }
{
    match answer {
        Ok(held) => second_of(held),
        Err(_) => 0,
    }
}
