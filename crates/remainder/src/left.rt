// The members of an object that its node does not name: noted first to last, since ids and fields rise together, and copied
// last to first.
ghost use Rattle.std.specs.Prelude.{length};
ghost use Rattle.paper.specs.Words.{joined};
ghost use Rattle.putting.specs.Put.{Room, PutAs};
ghost use Rattle.remainder.specs.Left.{NotedThere, noted_parts, SomeReady, AllLeft};

use crate::passing::{names_id, pass};
use members::{Members, id_at, part_at};

// Notes which members of an object the fields between two positions do not name, and their ids. Answers how many there are.
pub fn note_left(
    schema: &[u8],
    table: &[u16],
    from: usize,
    to: usize,
    s: &[u8],
    members: Members,
    notes: &mut [u16],
    ids: &mut [u8],
) -> usize
    requires { SomeReady schema.now table.now from to s.now members (length notes.old) (length ids.old) }
    ensures { AllLeft schema.now table.now from to s.now members (length notes.old) (length ids.old) notes.new ids.new result }
{
    let mut n = 0;
    let mut place = from;
    for k in 0..members.count {
        let id = id_at(s, members, k);
        place = pass(schema, table, place, to, id.0);
        if !names_id(table, place, to, id.0) {
            notes[n] = k as u16;
            numbers::write(ids, 2 * n, 2, id.0);
            n += 1;
        }
    }
    n
}

// Copies noted members, last to first, so that they end at a place.
pub fn copy_noted(
    s: &[u8],
    members: Members,
    notes: &[u16],
    count: usize,
    out: &mut [u8],
    end: usize,
) -> Option<usize>
    requires { Room out.old 0 end × NotedThere s.now members notes.now count }
    ensures { PutAs (joined (noted_parts s.now members notes.now count)) out.old out.new 0 end result }
{
    let mut start = end;
    for i in (0..count).rev() {
        let part = part_at(s, members, noting::spot(notes, i));
        if start < part.len() {
            return None;
        }
        start = writing::copied(part, out, start);
    }
    Some(start)
}
