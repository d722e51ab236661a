// The register's operations. None requires anything of its caller: any bytes may be lent. What an operation answers is a
// definition of `paper`. Each stands in `register_c` as a function for C.
#![tactic(auto)]

ghost use Rattle.std.specs.Prelude.{◌≡◌, ◌≤◌, true, length, Err, MatchResult};
ghost use Rattle.normalise.specs.Answered.{Answered};
ghost use Rattle.paper.specs.Operations.{normalise_outcome, shred_outcome, rebuild_outcome, check_answer, find_answer, judge_answer, cell_answer, box_answer};
ghost use Rattle.paper.specs.Limits.{most_schema, most_row};
ghost use Rattle.paper.specs.Schemas.{schema_of};
ghost use Rattle.paper.specs.Words.{is_there};
ghost use Rattle.handing.specs.Handing.{RowAnswered};
ghost use Rattle.rebuild.specs.Rebuilding.{Judged};
ghost use Rattle.words.specs.Boundary.{document_has_room};

use paper::{Cell, Child, DocumentAnswer, LotBox, Refusal, RowAnswer, Unwritten};
use rows::RowParts;

// ---- check

// Checks a Variant: its metadata and its value.
pub fn check(metadata: &[u8], value: &[u8]) -> Result<(), Refusal>
    ensures { result ≡ check_answer metadata.now value.now }
{
    documents::judge(metadata, value)?;
    Ok(())
}

// ---- find

// Finds a path: the start and the length, in the value, of the part that it leads to.
pub fn find(metadata: &[u8], value: &[u8], path: &[u8]) -> Result<Option<Child>, Refusal>
    ensures { result ≡ find_answer metadata.now value.now path.now }
{
    if paper::MOST_PATH < path.len() {
        return Err(Refusal::TooLong);
    }
    let dictionary = documents::judge(metadata, value)?;
    if !paths::path_good(path) {
        return Err(Refusal::BadPath);
    }
    Ok(paths::find(&dictionary, value, path))
}

// ---- normalise

// Normalises a Variant: writes the normal form of what it means into two buffers, metadata and value.
pub fn normalise(
    metadata: &[u8],
    value: &[u8],
    metadata_out: &mut [u8],
    value_out: &mut [u8],
) -> DocumentAnswer
    ensures { Answered (normalise_outcome metadata.now value.now) metadata_out.old metadata_out.new value_out.old value_out.new result }
{
    let dictionary = documents::judge(metadata, value)?;
    normalise::normalise(&dictionary, value, metadata_out, value_out)
}

// ---- shred

// Shreds a Variant under a schema: writes its row into a buffer.
pub fn shred(schema: &[u8], metadata: &[u8], value: &[u8], row: &mut [u8]) -> RowAnswer
    ensures { RowAnswered (shred_outcome schema.now metadata.now value.now) row.old row.new result }
{
    if paper::MOST_SCHEMA < schema.len() {
        return Err(Unwritten::Refused(Refusal::TooLong));
    }
    let dictionary = documents::judge(metadata, value)?;
    if !schemas::good(schema) {
        return Err(Unwritten::Refused(Refusal::BadSchema));
    }
    shred::shred(schema, &dictionary, value, row)
}

// ---- a row judged

// What is judged before a table is laid out, the lengths and the schema: 1 and 4.
fn admit(schema: &[u8], row: &[u8]) -> Result<(), Refusal>
    ensures { MatchResult result (λ _. (is_there (schema_of schema.now) ≡ true) × (length schema.now ≤ most_schema) × (length row.now ≤ most_row)) (λ refusal. Err refusal ≡ judge_answer schema.now row.now) }
{
    if paper::MOST_SCHEMA < schema.len() || paper::MOST_ROW < row.len() {
        return Err(Refusal::TooLong);
    }
    if !schemas::good(schema) {
        return Err(Refusal::BadSchema);
    }
    Ok(())
}

// A row judged under a good schema: 6 and 7. Of a lawful row the table tells each schema field's id in its dictionary.
fn judge_row<'a>(
    schema: &[u8],
    row: &'a [u8],
    table: &mut [u16; 456],
) -> Result<RowParts<'a>, Refusal>
    requires { (is_there (schema_of schema.now) ≡ true) × (length schema.now ≤ most_schema) × (length row.now ≤ most_row) }
    ensures { MatchResult result (λ parts. (judged : Judged schema.now parts table.new) × (judged.bytes ≡ row.now)) (λ refusal. Err refusal ≡ judge_answer schema.now row.now) }
{
    rows::judge(schema, row, table)
}

// Judges a row under a schema, as rebuild does before it writes.
pub fn judge(schema: &[u8], row: &[u8]) -> Result<(), Refusal>
    ensures { result ≡ judge_answer schema.now row.now }
{
    admit(schema, row)?;
    let mut table = [0; 456];
    judge_row(schema, row, &mut table)?;
    Ok(())
}

// ---- rebuild

// Rebuilds the document of a row under a schema. The lengths that it answers have room in a word: `register_c` makes that
// word, and so this is `pub`.
pub fn rebuild_row(
    schema: &[u8],
    row: &[u8],
    metadata_out: &mut [u8],
    value_out: &mut [u8],
) -> DocumentAnswer
    ensures { Answered (rebuild_outcome schema.now row.now) metadata_out.old metadata_out.new value_out.old value_out.new result × (document_has_room result ≡ true) }
{
    admit(schema, row)?;
    let mut table = [0; 456];
    let parts = judge_row(schema, row, &mut table)?;
    rebuild::rebuild(schema, &parts, &table, metadata_out, value_out)
}

// Rebuilds a Variant from a row and its schema: writes the normal form into two buffers, metadata and value.
pub fn rebuild(
    schema: &[u8],
    row: &[u8],
    metadata_out: &mut [u8],
    value_out: &mut [u8],
) -> DocumentAnswer
    ensures { Answered (rebuild_outcome schema.now row.now) metadata_out.old metadata_out.new value_out.old value_out.new result }
{
    rebuild_row(schema, row, metadata_out, value_out)
}

// ---- a lot's box

// Reads a lot's box from a document's outermost object.
pub fn lot_box(metadata: &[u8], value: &[u8]) -> Result<Option<LotBox>, Refusal>
    ensures { result ≡ box_answer metadata.now value.now }
{
    let dictionary = documents::judge(metadata, value)?;
    Ok(boxes::lot_box(&dictionary, value))
}

// ---- one typed cell

// Reads one typed cell, given a type code and its bytes.
pub fn cell(code: u8, bytes: &[u8]) -> Result<Cell, Refusal>
    ensures { result ≡ cell_answer code bytes.now }
{
    cells::cell(code, bytes)
}
