// What is left over of an object in normal form: the fields that its node does not name, copied behind a head of their own.
//
// The function with a `requires` is an inner one: whoever calls it has written the normal form and had the schema judged.
#![tactic(auto)]

ghost use Rattle.std.specs.Prelude.{◌≤◌, length};
ghost use Rattle.paper.specs.Limits.{most_row};
ghost use Rattle.paper.specs.Schemas.{column_names};
ghost use Rattle.paper.specs.Shredding.{unnamed};
ghost use Rattle.putting.specs.Put.{Room, PutAs};
ghost use Rattle.remainder.specs.Remainder.{RestReady, rest_bytes};

use heads::Readings;
use left::{copy_noted, note_left};
use members::Members;
use runs::Run;

mod left;
mod passing;

// Puts the leftover of an object under the fields between two positions of a schema, if anything is left over.
pub fn rest(
    readings: &Readings,
    ranks: &[u16],
    schema: &[u8],
    table: &[u16],
    from: usize,
    to: usize,
    s: &[u8],
    members: Members,
    notes: &mut [u16],
    ids: &mut [u8],
    out: &mut [u8],
    end: usize,
) -> Option<usize>
    requires { Room out.old 0 end × (length out.old ≤ most_row) × RestReady ranks.now schema.now table.now from to s.now members (length notes.old) (length ids.old) }
    ensures { (ready : RestReady ranks.now schema.now table.now from to s.now members (length notes.old) (length ids.old)) → PutAs (rest_bytes ready.names (unnamed (column_names ready.columns) ready.fs)) out.old out.new 0 end result }
{
    let count = note_left(schema, table, from, to, s, members, notes, ids);
    if count == 0 {
        return Some(end);
    }
    let parts = copy_noted(s, members, notes, count, out, end)?;
    let left = Run::new(ids, 2, count);
    let start = putting::object(readings, ranks, &left, out, 0, parts, end)?;
    enclosing::head(0x41, out, start, end)
}
