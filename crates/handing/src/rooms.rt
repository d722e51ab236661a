// The outermost place cut into a room, from its end towards its front, and the row handed out.
ghost use Rattle.std.specs.Prelude.{◌≤◌, length};
ghost use Rattle.paper.specs.Limits.{most_metadata, most_row};
ghost use Rattle.paper.specs.Operations.{row_outcome};
ghost use Rattle.handing.specs.Handing.{RowAnswered, row_from, Tabled, TriedAs};

use cutting::Basis;
use paper::{Refusal, RowAnswer, Unwritten};

// Hands out a row, by its metadata and its outermost place, if it is not too long and the buffer has room.
pub fn hand_out(metadata: &[u8], place: &[u8], row: &mut [u8]) -> RowAnswer
    requires { (length metadata.now ≤ most_metadata) × (length place.now ≤ most_row) }
    ensures { RowAnswered (row_from metadata.now place.now) row.old row.new result }
{
    let middle = 3 + metadata.len();
    let size = middle + place.len();
    if paper::MOST_ROW < size {
        return Err(Unwritten::Refused(Refusal::TooLarge));
    }
    if row.len() < size {
        return Err(Unwritten::Short(size));
    }
    numbers::write(row, 0, 1, 0x40);
    numbers::write(row, 1, 2, metadata.len());
    numbers::put(row, 3, metadata);
    numbers::put(row, middle, place);
    Ok(size)
}

// Cuts the value into a room, and hands the row out. Taken into its callers it would copy out of a room that is known to be
// theirs, by a function (`memcpy`) that the archive for C has no need of else.
#[inline(never)]
fn write_out(
    basis: &Basis,
    metadata: &[u8],
    value: &[u8],
    notes: &mut [u16],
    ids: &mut [u8],
    room: &mut [u8],
    row: &mut [u8],
) -> Option<RowAnswer>
    requires { Tabled basis.now.ranks.now basis.now.schema.now basis.now.table.now metadata.now value.now × (length value.now ≤ length notes.old) × (length value.now ≤ length ids.old) × (length room.old ≤ most_row) }
    ensures { (ready : Tabled basis.now.ranks.now basis.now.schema.now basis.now.table.now metadata.now value.now) → TriedAs ready.normal.node ready.normal.d row.old row.new (length room.old) result }
{
    let end = room.len();
    let levels = paper::MOST_LEVELS;
    let start = cutting::place(basis, levels, 0, value, notes, ids, room, end)?;
    Some(hand_out(metadata, &room[start..end], row))
}

// By way of the long room: a place that does not fit it makes no row that may be written.
fn in_long_room(
    basis: &Basis,
    metadata: &[u8],
    value: &[u8],
    notes: &mut [u16],
    ids: &mut [u8],
    row: &mut [u8],
) -> RowAnswer
    requires { Tabled basis.now.ranks.now basis.now.schema.now basis.now.table.now metadata.now value.now × (length value.now ≤ length notes.old) × (length value.now ≤ length ids.old) }
    ensures { (ready : Tabled basis.now.ranks.now basis.now.schema.now basis.now.table.now metadata.now value.now) → RowAnswered (row_outcome ready.normal.node ready.normal.d) row.old row.new result }
{
    let mut room = [0u8; 65535];
    let tried = write_out(basis, metadata, value, notes, ids, &mut room, row);
    tried.unwrap_or(Err(Unwritten::Refused(Refusal::TooLarge)))
}

// By way of the lent room, and then, unless it was as long, of the long one.
pub fn with_room(
    basis: &Basis,
    metadata: &[u8],
    value: &[u8],
    notes: &mut [u16],
    ids: &mut [u8],
    room: &mut [u8],
    row: &mut [u8],
) -> RowAnswer
    requires { Tabled basis.now.ranks.now basis.now.schema.now basis.now.table.now metadata.now value.now × (length value.now ≤ length notes.old) × (length value.now ≤ length ids.old) × (length room.old ≤ most_row) }
    ensures { (ready : Tabled basis.now.ranks.now basis.now.schema.now basis.now.table.now metadata.now value.now) → RowAnswered (row_outcome ready.normal.node ready.normal.d) row.old row.new result }
{
    let tried = write_out(basis, metadata, value, notes, ids, room, row);
    if let Some(answer) = tried {
        return answer;
    }
    if room.len() == paper::MOST_ROW {
        return Err(Unwritten::Refused(Refusal::TooLarge));
    }
    in_long_room(basis, metadata, value, notes, ids, row)
}
