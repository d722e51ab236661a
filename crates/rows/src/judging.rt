// A row judged under a good schema, and what a lawful one hands on.
ghost use Rattle.std.specs.Prelude.{true, false, ◌≡◌, ◌/◌, ◌≤◌, length};
ghost use Rattle.paper.specs.Bounds.{most_names};
ghost use Rattle.paper.specs.Limits.{most_row};
ghost use Rattle.paper.specs.Schemas.{schema_of};
ghost use Rattle.paper.specs.Words.{is_there};
ghost use Rattle.rows.specs.Judging.{OpenedAs, PartsReady, TableTells, Walked, JudgedAs};

use crate::opened::OpenRow;
use crate::walker::Walk;
use heads::Readings;
use paper::Refusal;
use places::{Verdict, row_halves};

// What was read of a row: its metadata, which keeps its rules, and what its outermost place holds. Each schema field's id in the
// dictionary that the metadata opens to is in the table that was lent.
#[derive(Clone, Copy)]
pub struct RowParts<'a> {
    pub metadata: &'a [u8],
    pub outermost: &'a [u8],
}

// Opens a row: `40` metadata that keeps its rules, `50` the outermost place, nothing more.
fn open_row(row: &[u8]) -> Option<OpenRow<'_>>
    ensures { OpenedAs row.now result }
{
    let middle = row_halves(row)?;
    if row[0] != 0x40 {
        return None;
    }
    if paper::MOST_METADATA < middle - 3 {
        return None;
    }
    let metadata = &row[3..middle];
    let dictionary = dictionary::judge(metadata)?;
    if row[middle] != 0x50 {
        return None;
    }
    let outermost = &row[middle + 3..];
    Some(OpenRow {
        parts: RowParts {
            metadata,
            outermost,
        },
        dictionary,
    })
}

// Walks the outermost place, with a table that tells each schema field's id.
fn outermost(schema: &[u8], row: &OpenRow, table: &[u16]) -> Verdict
    requires { PartsReady schema.now row.now table.now × TableTells schema.now row.now.dictionary table.now }
    ensures { Walked schema.now row.now table.now result }
{
    let walk = Walk {
        readings: &Readings::new(),
        dictionary: &row.dictionary,
        schema,
        table,
    };
    walk.place(paper::MOST_LEVELS, 0, row.parts.outermost)
}

// Finds the id of each schema field, and walks the outermost place.
fn walk(schema: &[u8], row: &OpenRow, order: &mut [u16], table: &mut [u16]) -> Verdict
    requires { PartsReady schema.now row.now table.old × (row.now.dictionary.sorted ≡ false → length row.now.dictionary.names ≤ length order.old) }
    ensures { Walked schema.now row.now table.new result }
{
    lookup::sort_names(&row.dictionary, order);
    fields::fill(schema, &row.dictionary, order, table);
    outermost(schema, row, table)
}

// Walks with room for the index of so many names.
fn walk_with<const N: usize>(schema: &[u8], row: &OpenRow, table: &mut [u16]) -> Verdict
    requires { PartsReady schema.now row.now table.old × (row.now.dictionary.sorted ≡ false → length row.now.dictionary.names ≤ N) × (N ≤ most_names) }
    ensures { Walked schema.now row.now table.new result }
{
    let mut order = [0u16; N];
    walk(schema, row, &mut order, table)
}

// Where no field is named nothing is looked up. The index of the names goes by their number; a sorted dictionary needs none.
fn walk_indexed(schema: &[u8], row: &OpenRow, table: &mut [u16]) -> Verdict
    requires { PartsReady schema.now row.now table.old }
    ensures { Walked schema.now row.now table.new result }
{
    if !fields::names_fields(schema) {
        return outermost(schema, row, table);
    }
    if row.dictionary.is_sorted() {
        return walk_with::<1>(schema, row, table);
    }
    match row.dictionary.len() {
        0..=64 => walk_with::<64>(schema, row, table),
        65..=1024 => walk_with::<1024>(schema, row, table),
        _ => walk_with::<16384>(schema, row, table),
    }
}

// Judges a row under a good schema. Of a lawful row the table tells each schema field's id in its dictionary.
pub fn judge<'a>(schema: &[u8], row: &'a [u8], table: &mut [u16]) -> Result<RowParts<'a>, Refusal>
    requires { (is_there (schema_of schema.now) ≡ true) × (length schema.now / 9 ≤ length table.old) × (length row.now ≤ most_row) }
    ensures { JudgedAs schema.now row.now table.new result }
{
    let opened = open_row(row).ok_or(Refusal::BadRow)?;
    match walk_indexed(schema, &opened, table) {
        Verdict::Lawful => Ok(opened.parts),
        Verdict::Broken => Err(Refusal::BrokenRule),
        Verdict::Unparsed => Err(Refusal::BadRow),
    }
}
