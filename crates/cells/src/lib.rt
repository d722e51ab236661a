// The reader of one typed cell: given a type code and its bytes, it is handed out by kind.
#![tactic(auto)]

ghost use Rattle.std.specs.Prelude.{true, cond, ◌≡◌, length};
ghost use Rattle.std.specs.Float.Ieee.{of_bits, nan_bits};
ghost use Rattle.std.specs.Float.{binary32, binary64};
ghost use Rattle.paper.specs.Schemas.{column_code};
ghost use Rattle.paper.specs.Cells.{number_cell, cell_meaning, handed_out};
ghost use Rattle.paper.specs.Operations.{cell_answer};
ghost use Rattle.paper.specs.Refusals.{obtain};
ghost use Rattle.paper.specs.Words.{is_there};
ghost use Rattle.cells.specs.Sized.{NumberSized};

use paper::{Cell, Refusal};

// A type code of a schema: 1, 3-7, 11-20.
#[tactic(auto, using(std::proofs::lemmas::Bool::Decides::nat_tests), unfolding(paper::specs::Schemas::column_code))]
pub fn column_code(code: u8) -> bool
    ensures { result ≡ column_code code }
{
    matches!(code, 1 | 3..=7 | 11..=20)
}

// The double of some bits, if they are no NaN's: those lie above the bits of infinity, the sign aside.
pub fn double(bits: u64) -> Option<f64>
    ensures { result ≡ cond (nan_bits binary64 bits) None (Some (of_bits binary64 bits)) }
{
    if 0x7ff0_0000_0000_0000 < bits % 0x8000_0000_0000_0000 {
        return None;
    }
    Some(f64::from_bits(bits))
}

// A float likewise.
fn float(bits: u32) -> Option<f32>
    ensures { result ≡ cond (nan_bits binary32 bits) None (Some (of_bits binary32 bits)) }
{
    if 0x7f80_0000 < bits % 0x8000_0000 {
        return None;
    }
    Some(f32::from_bits(bits))
}

// A double's number is that of its bits; a NaN's bits are handed out as they are.
fn double_cell(bits: u64) -> Cell
    ensures { result ≡ cond (nan_bits binary64 bits) (Cell.DoubleNan bits) (Cell.Double (of_bits binary64 bits)) }
{
    match double(bits) {
        Some(number) => Cell::Double(number),
        None => Cell::DoubleNan(bits),
    }
}

// A float's likewise.
fn float_cell(bits: u32) -> Cell
    ensures { result ≡ cond (nan_bits binary32 bits) (Cell.FloatNan bits) (Cell.Float (of_bits binary32 bits)) }
{
    match float(bits) {
        Some(number) => Cell::Float(number),
        None => Cell::FloatNan(bits),
    }
}

// A cell of a number, by its type: 7 is a double, 14 a float, 20 a uuid, the others are integers, dates and times.
fn number_cell(code: usize, bytes: &[u8]) -> Cell
    requires { NumberSized code (length bytes.now) }
    ensures { result ≡ number_cell code bytes.now }
{
    match code {
        7 => double_cell(numbers::read8(bytes, 0)),
        14 => float_cell(numbers::read(bytes, 0, 4) as u32),
        20 => Cell::Uuid {
            first: numbers::read8(bytes, 0),
            second: numbers::read8(bytes, 8),
        },
        _ => Cell::Integer(signed::read_signed(bytes, 0, bytes.len())),
    }
}

// A cell's bytes have the right size and content for their column: a boolean is `00` or `01`, a string or binary any bytes, the
// others have the size of their type.
pub fn good(code: u8, bytes: &[u8]) -> bool
    requires { column_code code ≡ true }
    ensures { result ≡ is_there (cell_meaning (record { code = code }) bytes.now) }
{
    match code {
        1 => bytes.len() == 1 && bytes[0] <= 1,
        15 | 16 => true,
        _ => bytes.len() == heads::payload_size(code as usize),
    }
}

// What good bytes are handed out as, by kind.
fn handed(code: u8, bytes: &[u8]) -> Cell
    requires { (column_code code ≡ true) × (is_there (cell_meaning (record { code = code }) bytes.now) ≡ true) }
    ensures { Ok result ≡ obtain (cell_meaning (record { code = code }) bytes.now) Refusal.BadRow λ value. Ok (handed_out value) }
{
    match code {
        1 => Cell::Boolean(bytes[0] == 1),
        15 | 16 => Cell::Length(bytes.len()),
        _ => number_cell(code as usize, bytes),
    }
}

// One typed cell. It judges in the order of the refusals: too long, no type code of a schema, of the wrong size or content.
pub fn cell(code: u8, bytes: &[u8]) -> Result<Cell, Refusal>
    ensures { result ≡ cell_answer code bytes.now }
{
    if paper::MOST_CELL < bytes.len() {
        return Err(Refusal::TooLong);
    }
    if !column_code(code) {
        return Err(Refusal::BadSchema);
    }
    if !good(code, bytes) {
        return Err(Refusal::BadRow);
    }
    Ok(handed(code, bytes))
}
