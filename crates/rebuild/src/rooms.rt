// The value written into a room, from its end towards its front, and handed out. Room goes by the length of the row's outermost
// place, so that a short row does not pay for the longest one.
ghost use Rattle.std.specs.Prelude.{◌≤◌, length};
ghost use Rattle.building.specs.Building.{Enough};
ghost use Rattle.normalise.specs.Answered.{Answered};
ghost use Rattle.paper.specs.Bounds.{most_walked};
ghost use Rattle.paper.specs.Operations.{written};
ghost use Rattle.rebuild.specs.Numbering.{IsNumbered, doc_of, TriedAs, SomeTried};

use building::Build;
use heads::Readings;
use normalise::hand_out;
use paper::{DocumentAnswer, Refusal, Unwritten};
use rows::OpenRow;

// A lawful row, each schema field's id in its dictionary, and its names numbered: each id's rank, and the ids chosen.
#[derive(Drop)]
pub struct NumberedRow<'a> {
    pub readings: &'a Readings,
    pub schema: &'a [u8],
    pub row: &'a OpenRow<'a>,
    pub table: &'a [u16],
    pub ranks: &'a [u16],
    pub chosen: &'a [u16],
}

// Writes the value at the end of a room, above its floor, and hands it out.
fn write_out(
    numbered: &NumberedRow,
    places: &mut [u16],
    ids: &mut [u8],
    room: &mut [u8],
    floor: usize,
    metadata_out: &mut [u8],
    value_out: &mut [u8],
) -> Option<DocumentAnswer>
    requires { IsNumbered numbered.now × Enough (length numbered.now.row.now.parts.outermost.now) (length places.old) (length ids.old) floor × (floor ≤ length room.old) × (length room.old ≤ most_walked) }
    ensures { TriedAs (doc_of numbered.now) metadata_out.old metadata_out.new value_out.old value_out.new (length room.old) floor result }
{
    let end = room.len();
    let build = Build {
        readings: numbered.readings,
        ranks: numbered.ranks,
        schema: numbered.schema,
        table: numbered.table,
    };
    let row = numbered.row;
    let body = row.parts.outermost;
    let start = build.place(paper::MOST_LEVELS, 0, body, places, ids, room, floor, end)?;
    let value = &room[start..end];
    let dictionary = &row.dictionary;
    Some(hand_out(dictionary, numbered.chosen, value, metadata_out, value_out))
}

// Writes by way of tables of NOTES entries for what is to be noted, and a room of ROOM bytes.
fn in_room<const NOTES: usize, const ROOM: usize>(
    numbered: &NumberedRow,
    floor: usize,
    metadata_out: &mut [u8],
    value_out: &mut [u8],
) -> Option<DocumentAnswer>
    requires { IsNumbered numbered.now × Enough (length numbered.now.row.now.parts.outermost.now) NOTES NOTES floor × (floor ≤ ROOM) × (ROOM ≤ most_walked) × (NOTES ≤ most_walked) }
    ensures { TriedAs (doc_of numbered.now) metadata_out.old metadata_out.new value_out.old value_out.new ROOM floor result }
{
    let mut places = [0u16; NOTES];
    let mut ids = [0u8; NOTES];
    let mut room = [0u8; ROOM];
    write_out(
        numbered,
        &mut places,
        &mut ids,
        &mut room,
        floor,
        metadata_out,
        value_out,
    )
}

// Tries a short room, for a short row; for one of a few bytes a still shorter one, and for a long row none.
fn in_short_room(
    numbered: &NumberedRow,
    metadata_out: &mut [u8],
    value_out: &mut [u8],
) -> Option<DocumentAnswer>
    requires { IsNumbered numbered.now }
    ensures { SomeTried (doc_of numbered.now) metadata_out.old metadata_out.new value_out.old value_out.new result }
{
    let row = numbered.row;
    match row.parts.outermost.len() {
        0..=128 => in_room::<128, 1024>(numbered, 256, metadata_out, value_out),
        129..=1024 => in_room::<1024, 6144>(numbered, 2048, metadata_out, value_out),
        _ => None,
    }
}

// Writes by way of the long room, which has a frame of its own, so that a short row does not take its stack. Its floor is at
// twice the longest leftover, and above it the longest value fits.
#[inline(never)]
fn in_long_room<const NOTES: usize>(
    numbered: &NumberedRow,
    metadata_out: &mut [u8],
    value_out: &mut [u8],
) -> DocumentAnswer
    requires { IsNumbered numbered.now × (length numbered.now.row.now.parts.outermost.now ≤ NOTES) × (NOTES ≤ most_walked) }
    ensures { Answered (written (doc_of numbered.now)) metadata_out.old metadata_out.new value_out.old value_out.new result }
{
    let tried = in_room::<NOTES, 49152>(numbered, 32768, metadata_out, value_out);
    tried.unwrap_or(Err(Unwritten::Refused(Refusal::TooLarge)))
}

// With the names numbered: a short room first, if the row is short, and then the long one, with an entry for each byte.
pub fn with_room(
    numbered: &NumberedRow,
    metadata_out: &mut [u8],
    value_out: &mut [u8],
) -> DocumentAnswer
    requires { IsNumbered numbered.now }
    ensures { Answered (written (doc_of numbered.now)) metadata_out.old metadata_out.new value_out.old value_out.new result }
{
    if let Some(answer) = in_short_room(numbered, metadata_out, value_out) {
        return answer;
    }
    let row = numbered.row;
    if row.parts.outermost.len() <= 16384 {
        return in_long_room::<16384>(numbered, metadata_out, value_out);
    }
    in_long_room::<65536>(numbered, metadata_out, value_out)
}
