// A document that is one cell or a null alone, written in its normal form. It uses no names, and its length is known before it
// is written: so it goes straight into the lent buffers.
#![tactic(auto)]

ghost use Rattle.std.specs.Prelude.{true, ◌∷◌, ◌≡◌, ◌+◌, ◌≤◌, ◌<◌, length};
ghost use Rattle.normalise.specs.Answered.{Answered};
ghost use Rattle.numbers.specs.Little.{put_at};
ghost use Rattle.paper.specs.Bounds.{most_walked};
ghost use Rattle.paper.specs.Cells.{cell_meaning};
ghost use Rattle.paper.specs.Meaning.{Scalar, scalar, null};
ghost use Rattle.paper.specs.Normal.{prefixed_bytes};
ghost use Rattle.paper.specs.Operations.{written};
ghost use Rattle.paper.specs.Schemas.{column_code};
ghost use Rattle.paper.specs.Words.{is_there};
ghost use Rattle.rebuilt.specs.Rebuilt.{cell_value};

use paper::{DocumentAnswer, DocumentLengths};

// How long a cell is as a value.
fn cell_size(code: u8, s: &[u8]) -> usize
    requires { length s.now ≤ most_walked }
    ensures { result ≡ length (cell_value code s.now) }
{
    match code {
        1 => 1,
        16 if s.len() <= 63 => 1 + s.len(),
        16 => 5 + s.len(),
        15 => 5 + s.len(),
        _ => 1 + s.len(),
    }
}

// Writes bytes with a first byte in front.
fn headed(first: usize, s: &[u8], out: &mut [u8])
    requires { (first < 256) × (1 + length s.now ≤ length out.old) }
    ensures { out.new ≡ put_at out.old 0 (first ∷ s.now) }
{
    numbers::write(out, 0, 1, first);
    numbers::put(out, 1, s);
}

// Writes bytes with their length and a first byte in front.
fn prefixed(code: usize, s: &[u8], out: &mut [u8])
    requires { (code < 64) × (5 + length s.now ≤ length out.old) }
    ensures { out.new ≡ put_at out.old 0 (prefixed_bytes code s.now) }
{
    numbers::write(out, 0, 1, 4 * code);
    numbers::write(out, 1, 4, s.len());
    numbers::put(out, 5, s);
}

// Writes a good cell's value. (`putting::cell` is left to lists: with one caller the compiler takes it into their loop.)
fn write_cell(code: u8, s: &[u8], out: &mut [u8])
    requires { (column_code code ≡ true) × (is_there (cell_meaning (record { code = code }) s.now) ≡ true) × (length (cell_value code s.now) ≤ length out.old) }
    ensures { out.new ≡ put_at out.old 0 (cell_value code s.now) }
{
    match code {
        1 if s[0] == 1 => numbers::write(out, 0, 1, 4),
        1 => numbers::write(out, 0, 1, 8),
        16 if s.len() <= 63 => headed(4 * s.len() + 1, s, out),
        16 => prefixed(16, s, out),
        15 => prefixed(15, s, out),
        _ => headed(4 * numbers::wide(code), s, out),
    }
}

// Writes a good cell. Metadata without names is the three bytes 11 00 00, which as a number are 17.
pub fn cell(code: u8, s: &[u8], metadata_out: &mut [u8], value_out: &mut [u8]) -> DocumentAnswer
    requires { (column_code code ≡ true) × (is_there (cell_meaning (record { code = code }) s.now) ≡ true) × (length s.now ≤ most_walked) }
    ensures { (value : Scalar) → cell_meaning (record { code = code }) s.now ≡ Some value → Answered (written (scalar value)) metadata_out.old metadata_out.new value_out.old value_out.new result }
{
    let needed = DocumentLengths {
        metadata: 3,
        value: cell_size(code, s),
    };
    normalise::fits(needed, metadata_out, value_out)?;
    numbers::write(metadata_out, 0, 3, 17);
    write_cell(code, s, value_out);
    Ok(needed)
}

// Writes a null: the value 00.
pub fn null(metadata_out: &mut [u8], value_out: &mut [u8]) -> DocumentAnswer
    ensures { Answered (written null) metadata_out.old metadata_out.new value_out.old value_out.new result }
{
    let needed = DocumentLengths {
        metadata: 3,
        value: 1,
    };
    normalise::fits(needed, metadata_out, value_out)?;
    numbers::write(metadata_out, 0, 3, 17);
    numbers::write(value_out, 0, 1, 0);
    Ok(needed)
}
