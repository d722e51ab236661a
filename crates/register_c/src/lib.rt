// The register's operations as functions for C (`include/tanvelis.h`), in a static library. None requires anything of its
// caller: any bytes may be lent. What an operation answers is a definition of `paper`; what crosses to C is the word of that
// answer, and for a box and a cell words of their own (`words/specs/`).
#![tactic(auto)]

ghost use Rattle.std.specs.Prelude.{◌≡◌, length};
ghost use Rattle.numbers.specs.Little.{put_at};
ghost use Rattle.paper.specs.Operations.{normalise_outcome, shred_outcome, rebuild_outcome, document_answer, metadata_written, value_written, row_answer, row_written, check_answer, find_answer, judge_answer, cell_answer, box_answer};
ghost use Rattle.words.specs.Boundary.{checked_word, found_word, document_word, row_word, cell_word, box_word};
ghost use Rattle.words.specs.BoxParts.{side_word};
ghost use Rattle.words.specs.CellParts.{first_word, second_word};

use words::Side;

#[unsafe(no_mangle)]
pub extern "C" fn tanvelis_check(metadata: &[u8], value: &[u8]) -> u64
    ensures { result ≡ checked_word (check_answer metadata.now value.now) }
{
    words::checked_word(register::check(metadata, value))
}

#[unsafe(no_mangle)]
pub extern "C" fn tanvelis_find(metadata: &[u8], value: &[u8], path: &[u8]) -> u64
    ensures { result ≡ found_word (find_answer metadata.now value.now path.now) }
{
    words::found_word(register::find(metadata, value, path))
}

#[unsafe(no_mangle)]
pub extern "C" fn tanvelis_normalise(
    metadata: &[u8],
    value: &[u8],
    metadata_out: &mut [u8],
    value_out: &mut [u8],
) -> u64
    ensures { (result ≡ document_word (document_answer (normalise_outcome metadata.now value.now) (length metadata_out.old) (length value_out.old))) × (metadata_out.new ≡ put_at metadata_out.old 0 (metadata_written (normalise_outcome metadata.now value.now) (length metadata_out.old) (length value_out.old))) × (value_out.new ≡ put_at value_out.old 0 (value_written (normalise_outcome metadata.now value.now) (length metadata_out.old) (length value_out.old))) }
{
    words::document_word(register::normalise(metadata, value, metadata_out, value_out))
}

#[unsafe(no_mangle)]
pub extern "C" fn tanvelis_shred(
    schema: &[u8],
    metadata: &[u8],
    value: &[u8],
    row: &mut [u8],
) -> u64
    ensures { (result ≡ row_word (row_answer (shred_outcome schema.now metadata.now value.now) (length row.old))) × (row.new ≡ put_at row.old 0 (row_written (shred_outcome schema.now metadata.now value.now) (length row.old))) }
{
    words::row_word(register::shred(schema, metadata, value, row))
}

#[unsafe(no_mangle)]
pub extern "C" fn tanvelis_judge(schema: &[u8], row: &[u8]) -> u64
    ensures { result ≡ checked_word (judge_answer schema.now row.now) }
{
    words::checked_word(register::judge(schema, row))
}

#[unsafe(no_mangle)]
pub extern "C" fn tanvelis_rebuild(
    schema: &[u8],
    row: &[u8],
    metadata_out: &mut [u8],
    value_out: &mut [u8],
) -> u64
    ensures { (result ≡ document_word (document_answer (rebuild_outcome schema.now row.now) (length metadata_out.old) (length value_out.old))) × (metadata_out.new ≡ put_at metadata_out.old 0 (metadata_written (rebuild_outcome schema.now row.now) (length metadata_out.old) (length value_out.old))) × (value_out.new ≡ put_at value_out.old 0 (value_written (rebuild_outcome schema.now row.now) (length metadata_out.old) (length value_out.old))) }
{
    words::document_word(register::rebuild_row(schema, row, metadata_out, value_out))
}

#[unsafe(no_mangle)]
pub extern "C" fn tanvelis_box(metadata: &[u8], value: &[u8]) -> u64
    ensures { result ≡ box_word (box_answer metadata.now value.now) }
{
    words::box_word(register::lot_box(metadata, value))
}

#[unsafe(no_mangle)]
pub extern "C" fn tanvelis_box_east(metadata: &[u8], value: &[u8]) -> u64
    ensures { result ≡ side_word Side.East (box_answer metadata.now value.now) }
{
    words::side_word(Side::East, register::lot_box(metadata, value))
}

#[unsafe(no_mangle)]
pub extern "C" fn tanvelis_box_north(metadata: &[u8], value: &[u8]) -> u64
    ensures { result ≡ side_word Side.North (box_answer metadata.now value.now) }
{
    words::side_word(Side::North, register::lot_box(metadata, value))
}

#[unsafe(no_mangle)]
pub extern "C" fn tanvelis_box_south(metadata: &[u8], value: &[u8]) -> u64
    ensures { result ≡ side_word Side.South (box_answer metadata.now value.now) }
{
    words::side_word(Side::South, register::lot_box(metadata, value))
}

#[unsafe(no_mangle)]
pub extern "C" fn tanvelis_box_west(metadata: &[u8], value: &[u8]) -> u64
    ensures { result ≡ side_word Side.West (box_answer metadata.now value.now) }
{
    words::side_word(Side::West, register::lot_box(metadata, value))
}

// For C: whether it was read, and the kind; or the refusal's number.
#[unsafe(no_mangle)]
pub extern "C" fn tanvelis_cell(code: u8, bytes: &[u8]) -> u64
    ensures { result ≡ cell_word (cell_answer code bytes.now) }
{
    words::cell_word(register::cell(code, bytes))
}

// For C: the first word of what the cell holds.
#[unsafe(no_mangle)]
pub extern "C" fn tanvelis_cell_first(code: u8, bytes: &[u8]) -> u64
    ensures { result ≡ first_word (cell_answer code bytes.now) }
{
    words::first_word(register::cell(code, bytes))
}

// For C: the second word of what the cell holds.
#[unsafe(no_mangle)]
pub extern "C" fn tanvelis_cell_second(code: u8, bytes: &[u8]) -> u64
    ensures { result ≡ second_word (cell_answer code bytes.now) }
{
    words::second_word(register::cell(code, bytes))
}
