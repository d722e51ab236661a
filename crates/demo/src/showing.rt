// A row shown field by field, as its frames have it. What does not fit is shown as far as it goes: the register judges, not this.
ghost use Rattle.std.specs.Prelude.{◌<◌, length};

use crate::saying;
use std::io;
use std::io::Write;

// The body of the frame at the front of some bytes, and what stands behind it. A frame is a tag, a two-byte length and that
// many bytes; one that does not fit ends where the bytes end.
fn frame(s: &[u8]) -> (&[u8], &[u8])
    ensures { 0 < length s.now → length result.1.now < length s.now }
{
    let [_, low, high, rest @ ..] = s else {
        return (&[], &[]);
    };
    let size = usize::from(u16::from_le_bytes([*low, *high]));
    if rest.len() < size {
        return (rest, &[]);
    }
    rest.split_at(size)
}

// One typed cell under a column's code.
pub fn cell(out: &mut impl Write, code: u8, bytes: &[u8]) -> io::Result<()> {
    match register::cell(code, bytes) {
        Ok(read) => saying::cell(out, read),
        Err(refusal) => saying::refused(out, refusal),
    }
}

// What is typed under a node: a column's cell by its kind, else the bytes.
fn typed(out: &mut impl Write, node: &[u8], bytes: &[u8]) -> io::Result<()> {
    write!(out, ", typed")?;
    match node {
        [_, _, _, code] => cell(out, *code, bytes),
        _ => saying::bytes(out, bytes),
    }
}

// A place under a node: missing, left over, typed, or both.
fn place(out: &mut impl Write, node: &[u8], held: &[u8]) -> io::Result<()> {
    if held.is_empty() {
        return write!(out, ", missing");
    }
    let (first, behind) = frame(held);
    if let [0x42, ..] = held {
        return typed(out, node, first);
    }
    write!(out, ", left over")?;
    saying::bytes(out, first)?;
    if behind.is_empty() {
        return Ok(());
    }
    typed(out, node, frame(behind).0)
}

// The fields of an object's node, each by its name, and its place among the typed places.
fn fields(out: &mut impl Write, mut columns: &[u8], mut places: &[u8]) -> io::Result<()> {
    // Frames are of many lengths, so their places are no range.
    while !columns.is_empty() {
        let (column, other_columns) = frame(columns);
        let (held, other_places) = frame(places);
        let (name, node) = frame(column);
        write!(out, "\n    ")?;
        out.write_all(name)?;
        place(out, node, held)?;
        columns = other_columns;
        places = other_places;
    }
    Ok(())
}

// What stands in a row: its metadata, and its outermost place; under an object's node what is left over, and field by field what is
// typed.
pub fn row(out: &mut impl Write, schema: &[u8], bytes: &[u8]) -> io::Result<()> {
    let (metadata, behind) = frame(bytes);
    write!(out, "\n    metadata")?;
    saying::bytes(out, metadata)?;
    let outermost = frame(behind).0;
    let [0x30, ..] = schema else {
        write!(out, "\n    the place")?;
        return place(out, schema, outermost);
    };
    let columns = frame(schema).0;
    let (first, behind) = frame(outermost);
    let [0x41, ..] = outermost else {
        return fields(out, columns, first);
    };
    write!(out, "\n    left over")?;
    saying::bytes(out, first)?;
    fields(out, columns, frame(behind).0)
}
