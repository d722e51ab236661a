// What is said of an answer.
//
// What is said goes out at once, and each piece that `write!` says is a call of its own. What is said often is put together first.
use crate::reading;
use paper::{Cell, Refusal};
use std::io;
use std::io::{Cursor, Write};

const DIGITS: &[u8; 16] = b"0123456789abcdef";

// The longest of what is said of a refusal is shorter.
const MOST_SAID: usize = 128;

// A refusal: its number, and what it says.
pub fn refused(out: &mut impl Write, refusal: Refusal) -> io::Result<()> {
    let number = u8::from(refusal);
    let mut said = Cursor::new([0; MOST_SAID]);
    write!(said, ": refused, {number}: {refusal}")?;
    out.write_all(reading::front(said.get_ref(), said.position() as usize))
}

// Bytes in hex, a space before each.
pub fn bytes(out: &mut impl Write, s: &[u8]) -> io::Result<()> {
    for byte in s {
        let (high, low) = (usize::from(byte / 16), usize::from(byte % 16));
        out.write_all(&[b' ', DIGITS[high], DIGITS[low]])?;
    }
    Ok(())
}

pub fn cell(out: &mut impl Write, read: Cell) -> io::Result<()> {
    match read {
        Cell::Boolean(true) => write!(out, ": yes"),
        Cell::Boolean(false) => write!(out, ": no"),
        Cell::Integer(z) => write!(out, ": {z}"),
        Cell::Float(_) => write!(out, ": a float"),
        Cell::FloatNan(_) => write!(out, ": a float, not a number"),
        Cell::Double(_) => write!(out, ": a double"),
        Cell::DoubleNan(_) => write!(out, ": a double, not a number"),
        Cell::Length(length) => write!(out, ": bytes, {length}"),
        Cell::Uuid { first, second } => write!(out, ": {first} and {second}"),
    }
}
