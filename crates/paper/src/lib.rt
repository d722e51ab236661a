// Document 01 as definitions: everything that a reader must believe is in `specs/`, a file to a paragraph of 01, in its
// order. This file has the types of the answers, which the definitions and the operations share.
#![tactic(auto)]

ghost use Rattle.std.specs.Prelude.{◌≡◌};
ghost use Rattle.paper.specs.Constants.{AsStated};
ghost use Rattle.paper.specs.Refusals.{refusal_number};
ghost use Rattle.paper.specs.declared.Unwritten.TheVariants.{Refused};

use std::error::Error;
use std::fmt;

// What a register may hold: the numbers of `specs/Limits.antt`, for the code.
pub const MOST_METADATA: usize = 16384;

pub const MOST_VALUE: usize = 16384;

pub const MOST_SCHEMA: usize = 4096;

pub const MOST_PATH: usize = 1024;

pub const MOST_ROW: usize = 65535;

pub const MOST_CELL: usize = 16384;

pub const MOST_LEFTOVER: usize = 16384;

pub const MOST_LEVELS: usize = 16;

// The constants as a record, so that they can be shown to be those numbers.
#[derive(Clone, Copy)]
pub struct Limits {
    pub metadata: usize,
    pub value: usize,
    pub schema: usize,
    pub path: usize,
    pub row: usize,
    pub cell: usize,
    pub leftover: usize,
    pub levels: usize,
}

pub fn may_hold() -> Limits
    ensures { AsStated result }
{
    Limits {
        metadata: MOST_METADATA,
        value: MOST_VALUE,
        schema: MOST_SCHEMA,
        path: MOST_PATH,
        row: MOST_ROW,
        cell: MOST_CELL,
        leftover: MOST_LEFTOVER,
        levels: MOST_LEVELS,
    }
}

// Why the register says no, in the order of 01's numbers 1 to 8. (9 is an answer that carries the lengths needed.)
#[derive(Clone, Copy, Debug, PartialEq, Eq)]
pub enum Refusal {
    TooLong,
    BadMetadata,
    BadValue,
    BadSchema,
    BadPath,
    BadRow,
    BrokenRule,
    TooLarge,
}

// The number that 01 gives a refusal.
impl From<Refusal> for u8 {
    ghost from_gives = { λ refusal n. n ≡ refusal_number refusal };

    fn from(refusal: Refusal) -> u8 {
        match refusal {
            Refusal::TooLong => 1,
            Refusal::BadMetadata => 2,
            Refusal::BadValue => 3,
            Refusal::BadSchema => 4,
            Refusal::BadPath => 5,
            Refusal::BadRow => 6,
            Refusal::BrokenRule => 7,
            Refusal::TooLarge => 8,
        }
    }
}

// A refusal in 01's words, shortened: 01 also says "lent metadata", "lent value .. nesting included", and for 8 "shred also:
// the row".
impl fmt::Display for Refusal {
    fn fmt<W: fmt::Write>(&self, f: &mut fmt::Formatter<W>) -> fmt::Result {
        f.write_str(match self {
            Refusal::TooLong => "an input is longer than a register may hold",
            Refusal::BadMetadata => "the metadata breaks its rules",
            Refusal::BadValue => "the value breaks its rules under that metadata",
            Refusal::BadSchema => "the schema, or the type code, breaks its rules",
            Refusal::BadPath => "the path breaks its rules",
            Refusal::BadRow => "the row does not parse, or the cell has the wrong size or content",
            Refusal::BrokenRule => "the row parses but breaks a rule a to f",
            Refusal::TooLarge => "the normal value passes 16,384 bytes, or the row 65,535",
        })
    }
}

impl Error for Refusal {}

// What a first byte says. Numbers are the bytes that a count, an id, an offset or a payload takes.
#[derive(Clone, Copy)]
pub enum Reading {
    // A primitive with a payload of that size.
    Fixed {
        code: usize,
        size: usize,
    },
    // Binary or string: a four-byte length, then that many bytes.
    Prefixed {
        code: usize,
    },
    // A short string of that many bytes.
    Short {
        size: usize,
    },
    ObjectHead {
        count: usize,
        id: usize,
        offset: usize,
    },
    ArrayHead {
        count: usize,
        offset: usize,
    },
    // Types 21 to 63, or an unused bit that is not zero.
    Nothing,
}

// A part of a value: where it starts, and how long it says it is.
#[derive(Clone, Copy, Debug, PartialEq, Eq)]
pub struct Child {
    pub start: usize,
    pub size: usize,
}

// The lengths of a document: of its metadata and of its value.
#[derive(Clone, Copy, Debug, PartialEq, Eq)]
pub struct DocumentLengths {
    pub metadata: usize,
    pub value: usize,
}

// Why an operation that writes into lent buffers wrote nothing: a refusal, 1 to 8, or a buffer is too short: 9, with the
// lengths needed.
#[derive(Clone, Copy, Debug, PartialEq, Eq)]
pub enum Unwritten<Lengths> {
    Refused(Refusal),
    Short(Lengths),
}

// A refusal is handed on as it is.
impl<Lengths> From<Refusal> for Unwritten<Lengths> {
    ghost from_gives = { λ refusal unwritten. unwritten ≡ Refused refusal };

    fn from(refusal: Refusal) -> Unwritten<Lengths> {
        Unwritten::Refused(refusal)
    }
}

// The answer of normalise and of rebuild: the lengths written, or why nothing was.
pub type DocumentAnswer = Result<DocumentLengths, Unwritten<DocumentLengths>>;

// The answer of shred: the length written, or why nothing was.
pub type RowAnswer = Result<usize, Unwritten<usize>>;

// One typed cell. A float's bits cross only off a NaN in today's toolchain, so a NaN comes out as its bits.
#[derive(Clone, Copy, Debug, PartialEq)]
pub enum Cell {
    Boolean(bool),
    Integer(i64),
    Float(f32),
    Double(f64),
    FloatNan(u32),
    DoubleNan(u64),
    Length(usize),
    Uuid { first: u64, second: u64 },
}

// A lot's box.
#[derive(Clone, Copy, Debug, PartialEq)]
pub struct LotBox {
    pub east: f64,
    pub north: f64,
    pub south: f64,
    pub west: f64,
}
