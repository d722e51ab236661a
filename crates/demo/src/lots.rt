// Lots read and answered, an operation each.
use crate::reading::{MOST_WORD, Word};
use crate::{reading, saying, showing};
use paper::{DocumentAnswer, Unwritten};
use std::io;
use std::io::Write;

// A document's two parts: lent, written or given.
#[derive(Clone, Copy)]
struct Document<'a> {
    metadata: &'a [u8],
    value: &'a [u8],
}

impl<'a> Document<'a> {
    fn new(metadata: &'a [u8], value: &'a [u8]) -> Document<'a> {
        Document { metadata, value }
    }
}

// A document: good, or the number of the refusal.
fn check(out: &mut impl Write, lent: Document) -> io::Result<()> {
    match register::check(lent.metadata, lent.value) {
        Ok(()) => write!(out, ": good"),
        Err(refusal) => saying::refused(out, refusal),
    }
}

// A path in a document: where it leads, or that it leads nowhere.
fn find(out: &mut impl Write, lent: Document, path: &[u8]) -> io::Result<()> {
    match register::find(lent.metadata, lent.value, path) {
        Ok(Some(part)) => write!(out, ": start {}, length {}", part.start, part.size),
        Ok(None) => write!(out, ": absent"),
        Err(refusal) => saying::refused(out, refusal),
    }
}

// A document's box.
fn lot_box(out: &mut impl Write, lent: Document) -> io::Result<()> {
    match register::lot_box(lent.metadata, lent.value) {
        Ok(Some(_)) => write!(out, ": a box"),
        Ok(None) => write!(out, ": no box"),
        Err(refusal) => saying::refused(out, refusal),
    }
}

// One typed cell: its type code, and its bytes.
fn cell(out: &mut impl Write, code: &[u8], bytes: &[u8]) -> io::Result<()> {
    match code.first() {
        Some(code) => showing::cell(out, *code, bytes),
        None => write!(out, ": no code"),
    }
}

// Whether a buffer holds what is given.
fn compared(out: &mut impl Write, bytes: &[u8], given: &[u8]) -> io::Result<()> {
    if bytes == given {
        write!(out, ", as given")
    } else {
        write!(out, ", other bytes")
    }
}

// A document written into two buffers: the lengths written or needed, and whether the buffers now hold what is given.
fn written(
    out: &mut impl Write,
    answer: DocumentAnswer,
    held: Document,
    given: Document,
) -> io::Result<()> {
    match answer {
        Ok(lengths) => {
            write!(out, ": metadata {}", lengths.metadata)?;
            compared(out, held.metadata, given.metadata)?;
            write!(out, ", value {}", lengths.value)?;
            compared(out, held.value, given.value)
        }
        Err(Unwritten::Short(needed)) => {
            write!(
                out,
                ": 9, metadata needs {} and value {}",
                needed.metadata, needed.value
            )
        }
        Err(Unwritten::Refused(refusal)) => saying::refused(out, refusal),
    }
}

// A document normalised into two buffers, whose lengths are given, a byte each.
fn normalise(
    out: &mut impl Write,
    lent: Document,
    rooms: &[u8],
    given: Document,
) -> io::Result<()> {
    let mut metadata = [0; MOST_WORD];
    let mut value = [0; MOST_WORD];
    let metadata = &mut metadata[..reading::room(rooms, 0)];
    let value = &mut value[..reading::room(rooms, 1)];
    let answer = register::normalise(lent.metadata, lent.value, metadata, value);
    written(out, answer, Document::new(metadata, value), given)
}

// A row's document rebuilt into two buffers, whose lengths are given, a byte each.
fn rebuild(
    out: &mut impl Write,
    schema: &[u8],
    row: &[u8],
    rooms: &[u8],
    given: Document,
) -> io::Result<()> {
    let mut metadata = [0; MOST_WORD];
    let mut value = [0; MOST_WORD];
    let metadata = &mut metadata[..reading::room(rooms, 0)];
    let value = &mut value[..reading::room(rooms, 1)];
    let answer = register::rebuild(schema, row, metadata, value);
    written(out, answer, Document::new(metadata, value), given)
}

// A document shredded into a buffer, whose length is given in one byte: the length written or needed, and whether the buffer
// now holds what is given.
fn shred(
    out: &mut impl Write,
    schema: &[u8],
    lent: Document,
    rooms: &[u8],
    given: &[u8],
) -> io::Result<()> {
    let mut row = [0; MOST_WORD];
    let row = &mut row[..reading::room(rooms, 0)];
    match register::shred(schema, lent.metadata, lent.value, row) {
        Ok(length) => {
            write!(out, ": row {length}")?;
            compared(out, row, given)
        }
        Err(Unwritten::Short(needed)) => write!(out, ": 9, the row needs {needed}"),
        Err(Unwritten::Refused(refusal)) => saying::refused(out, refusal),
    }
}

// A value of a fixed size, by its type and payload.
fn payload(out: &mut impl Write, bytes: &[u8]) -> io::Result<()> {
    match bytes {
        [first, held @ ..] => showing::cell(out, *first / 4, held),
        [] => write!(out, ": nothing"),
    }
}

// What another screen shows of a row: the part at a path of its document, rebuilt into two buffers.
fn screen(out: &mut impl Write, schema: &[u8], row: &[u8], path: &[u8]) -> io::Result<()> {
    let mut metadata = [0; MOST_WORD];
    let mut value = [0; MOST_WORD];
    let answer = register::rebuild(schema, row, &mut metadata, &mut value);
    let Ok(lengths) = answer else {
        let held = Document::new(&metadata, &value);
        return written(out, answer, held, held);
    };
    let metadata = reading::front(&metadata, lengths.metadata);
    let value = reading::front(&value, lengths.value);
    match register::find(metadata, value, path) {
        Ok(Some(part)) => {
            let shown = reading::behind(value, part.start);
            payload(out, reading::front(shown, part.size))
        }
        Ok(None) => write!(out, ": absent"),
        Err(refusal) => saying::refused(out, refusal),
    }
}

// The operation that a lot names, on the lot's other words.
fn operation(out: &mut impl Write, name: &[u8], lent: [&[u8]; 5]) -> io::Result<()> {
    let [a, b, c, d, e] = lent;
    match name {
        b"check" => check(out, Document::new(a, b)),
        b"find" => find(out, Document::new(a, b), c),
        b"normalise" => normalise(out, Document::new(a, b), c, Document::new(d, e)),
        b"shred" => shred(out, a, Document::new(b, c), d, e),
        b"rebuild" => rebuild(out, a, b, c, Document::new(d, e)),
        b"cell" => cell(out, a, b),
        b"box" => lot_box(out, Document::new(a, b)),
        b"show" => showing::row(out, a, b),
        b"screen" => screen(out, a, b, c),
        _ => write!(out, ": no such operation"),
    }
}

// Reads a lot's words, and answers.
fn answer(out: &mut impl Write, lot: &[u8]) -> io::Result<()> {
    let mut words = lot.split(|c| *c == b' ');
    let name = words.next().unwrap_or(&[]);
    let a = Word::read(words.next().unwrap_or(&[]));
    let b = Word::read(words.next().unwrap_or(&[]));
    let c = Word::read(words.next().unwrap_or(&[]));
    let d = Word::read(words.next().unwrap_or(&[]));
    let e = Word::read(words.next().unwrap_or(&[]));
    operation(
        out,
        name,
        [a.bytes(), b.bytes(), c.bytes(), d.bytes(), e.bytes()],
    )
}

// A heading, or a lot: its title and its answer.
fn answer_line(out: &mut impl Write, line: &[u8]) -> io::Result<()> {
    let mut parts = line.splitn(2, |c| *c == b'|');
    let first = parts.next().unwrap_or(&[]);
    match parts.next() {
        Some(title) => {
            write!(out, " ")?;
            out.write_all(title)?;
            answer(out, first)?;
        }
        None => out.write_all(first)?,
    }
    writeln!(out)
}

pub fn answer_all(out: &mut impl Write, text: &[u8]) -> io::Result<()> {
    for line in text.split_inclusive(|c| *c == b'\n') {
        answer_line(out, line.strip_suffix(b"\n").unwrap_or(line))?;
    }
    Ok(())
}
