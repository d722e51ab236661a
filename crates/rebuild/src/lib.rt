// A lawful row's document written in its normal form: refusal 8, the 9 of two buffers, and what is written.
//
// The value is first written into scratch, so that its length is known before a byte of the caller's buffers is touched.
// Scratch goes by the sizes of the dictionary and of the row, so that a small row does not pay for a full-size one.
#![tactic(auto)]

mod rooms;

ghost use Rattle.std.specs.Prelude.{List, ℕ, ◌≡◌, ◌≤◌, length, replicate};
ghost use Rattle.building.specs.Building.{Bytes};
ghost use Rattle.gathering.specs.Gathering.{PlaceReady};
ghost use Rattle.marking.specs.Ids.{mark_ids};
ghost use Rattle.normalise.specs.Answered.{Answered};
ghost use Rattle.paper.specs.Bounds.{most_walked};
ghost use Rattle.paper.specs.Limits.{most_levels};
ghost use Rattle.paper.specs.Operations.{written};
ghost use Rattle.paper.specs.Rebuilding.{row_meaning};
ghost use Rattle.paper.specs.Rows.{Row, row_of};
ghost use Rattle.paper.specs.Schemas.{Schema, schema_of};
ghost use Rattle.places.specs.Parts.{parts_of};
ghost use Rattle.places.specs.declared.parts.Parts.TheVariants.{Typed};
ghost use Rattle.rebuilt.specs.Using.{place_ids};
ghost use Rattle.rows.specs.Judging.{InOrder};
ghost use Rattle.schemas.specs.Positions.{Stands};
ghost use Rattle.rebuild.specs.Rebuilding.{Judged, row_doc};

use crate::rooms::{NumberedRow, with_room};
use heads::Readings;
use paper::DocumentAnswer;
use places::Parts;
use rows::{OpenRow, RowParts};
use schemas::Kind;

// Marks the ids that an outermost place uses. What it holds are bytes.
fn mark_used(readings: &Readings, schema: &[u8], table: &[u16], outermost: &[u8], used: &mut [u8])
    requires { PlaceReady most_levels schema.now table.now 0 outermost.now (length used.old) }
    ensures marks { (under : Schema) → Stands most_levels schema.now 0 under → used.new ≡ mark_ids used.old (place_ids under most_levels schema.now table.now 0 outermost.now) }
    ensures bytes { Bytes outermost.now }
{
    let walk = gathering::Walk {
        readings,
        schema,
        table,
    };
    walk.place(paper::MOST_LEVELS, 0, outermost, used);
}

// Numbers the names that the row uses, in tables that have an entry for each name of its dictionary.
fn with_tables(
    schema: &[u8],
    row: &OpenRow,
    table: &[u16],
    used: &mut [u8],
    ranks: &mut [u16],
    chosen: &mut [u16],
    metadata_out: &mut [u8],
    value_out: &mut [u8],
) -> DocumentAnswer
    requires { Judged schema.now row.now.parts table.now × (length row.now.dictionary.names ≤ length used.old) × (length row.now.dictionary.names ≤ length ranks.old) × (length row.now.dictionary.names ≤ length chosen.old) × (used.old ≡ replicate (length used.old) 0) }
    ensures { Answered (written (row_doc schema.now row.now.parts)) metadata_out.old metadata_out.new value_out.old value_out.new result }
{
    let readings = Readings::new();
    mark_used(&readings, schema, table, row.parts.outermost, used);
    let count = ranking::rank(&row.dictionary, used, ranks, chosen);
    let numbered = NumberedRow {
        readings: &readings,
        schema,
        row,
        table,
        ranks,
        chosen: &chosen[..count],
    };
    with_room(&numbered, metadata_out, value_out)
}

// Writes by way of tables of N entries.
fn in_tables<const N: usize>(
    schema: &[u8],
    row: &OpenRow,
    table: &[u16],
    metadata_out: &mut [u8],
    value_out: &mut [u8],
) -> DocumentAnswer
    requires { Judged schema.now row.now.parts table.now × (length row.now.dictionary.names ≤ N) × (N ≤ most_walked) }
    ensures { Answered (written (row_doc schema.now row.now.parts)) metadata_out.old metadata_out.new value_out.old value_out.new result }
{
    let mut used = [0u8; N];
    let mut ranks = [0u16; N];
    let mut chosen = [0u16; N];
    with_tables(
        schema,
        row,
        table,
        &mut used,
        &mut ranks,
        &mut chosen,
        metadata_out,
        value_out,
    )
}

// The tables go by the number of names in the row's dictionary.
fn by_tables(
    schema: &[u8],
    row: &RowParts,
    table: &[u16],
    metadata_out: &mut [u8],
    value_out: &mut [u8],
) -> DocumentAnswer
    requires { Judged schema.now row.now table.now }
    ensures { Answered (written (row_doc schema.now row.now)) metadata_out.old metadata_out.new value_out.old value_out.new result }
{
    let opened = OpenRow {
        parts: *row,
        dictionary: dictionary::open(row.metadata),
    };
    match opened.dictionary.len() {
        0..=64 => in_tables::<64>(schema, &opened, table, metadata_out, value_out),
        65..=1024 => in_tables::<1024>(schema, &opened, table, metadata_out, value_out),
        _ => in_tables::<16384>(schema, &opened, table, metadata_out, value_out),
    }
}

// What is typed alone: a cell uses no names, so it needs no tables.
fn typed_alone(
    schema: &[u8],
    row: &RowParts,
    table: &[u16],
    metadata_out: &mut [u8],
    value_out: &mut [u8],
) -> DocumentAnswer
    requires { Judged schema.now row.now table.now × (parts_of row.now.outermost.now ≡ Typed) }
    ensures { Answered (written (row_doc schema.now row.now)) metadata_out.old metadata_out.new value_out.old value_out.new result }
{
    let Kind::Column(code) = schemas::kind_at(schema, 0) else {
        return by_tables(schema, row, table, metadata_out, value_out);
    };
    lone::cell(code, &row.outermost[3..], metadata_out, value_out)
}

// Writes the document of a lawful row in its normal form. A row that is a leftover alone is that document, under the row's
// metadata; an empty one is a null.
pub fn rebuild(
    schema: &[u8],
    row: &RowParts,
    table: &[u16],
    metadata_out: &mut [u8],
    value_out: &mut [u8],
) -> DocumentAnswer
    requires { Judged schema.now row.now table.now }
    ensures { (bytes : List ℕ) → InOrder bytes row.now → (node : Schema) (parsed : Row) → schema_of schema.now ≡ Some node → row_of node bytes ≡ Some parsed → Answered (written (row_meaning node parsed)) metadata_out.old metadata_out.new value_out.old value_out.new result }
{
    match places::split(row.outermost) {
        Parts::Empty => lone::null(metadata_out, value_out),
        Parts::Leftover => normalise::normalise(
            &dictionary::open(row.metadata),
            &row.outermost[3..],
            metadata_out,
            value_out,
        ),
        Parts::Typed => typed_alone(schema, row, table, metadata_out, value_out),
        Parts::Both(_) | Parts::Unframed => {
            by_tables(schema, row, table, metadata_out, value_out)
        }
    }
}
