// An object's members, its places and its leftover's members merged by their normal ids.
ghost use Rattle.std.specs.Prelude.{[], ◌∷◌, ℕ, ◌+◌, ◌-◌, ◌*◌, ◌≤◌, ◌<◌, length};
ghost use Rattle.paper.specs.Bounds.{most_walked};
ghost use Rattle.paper.specs.Limits.{most_schema, most_row};
ghost use Rattle.paper.specs.Schemas.{SchemaFields};
ghost use Rattle.rebuilt.specs.Rebuilt.{pieces_in};
ghost use Rattle.schemas.specs.Positions.{FieldsStand};
ghost use Rattle.noting.specs.Adding.{SomeMembers, LeftRun, RunRanked, NoteRoom, Added, LeftAdded, FieldAdded};
ghost use Rattle.noting.specs.Notes.{left_notes, field_notes, Noted, member_notes};

use dictionary::{InputId, input_id};
use fields::field_id;
use places::place_frame;
use ranking::normal_of;
use runs::Run;
use schemas::frame_end;

// Notes a member behind so many.
fn note(places: &mut [u16], ids: &mut [u8], n: usize, id: InputId, place: usize, field: usize)
    requires { NoteRoom places.old ids.old (n + 1) × (id.0 < most_walked) × (place < most_walked) × (field < most_walked) }
    ensures { Added ((record { id = id.0; place = place; field = field }) ∷ []) places.old ids.old n places.new ids.new (n + 1) }
{
    let first = 2 * n;
    places[first] = place as u16;
    places[first + 1] = field as u16;
    numbers::write(ids, first, 2, id.0);
}

// Notes of a leftover's members, from one on, those in front of the first whose normal id is not below a bound; answers
// which that is.
fn note_left(
    ranks: &[u16],
    lefts: &Run,
    starts: &Run,
    from: usize,
    bound: usize,
    places: &mut [u16],
    ids: &mut [u8],
    n: usize,
) -> usize
    requires { LeftRun lefts.now starts.now × RunRanked ranks.now lefts.now × (from ≤ length lefts.now) × NoteRoom places.old ids.old (n + (length lefts.now - from)) }
    ensures { LeftAdded ranks.now (left_notes lefts.now starts.now) from (length lefts.now) bound places.old ids.old n places.new ids.new result }
{
    for i in from..lefts.len() {
        let input = input_id(lefts, i);
        let normal = normal_of(ranks, input);
        if bound <= normal.0 {
            return i;
        }
        note(places, ids, n + (i - from), input, starts.get(i), 0);
    }
    lefts.len()
}

// Notes a typed member, behind those of a leftover, from one on, whose normal ids are lower; answers which is the next.
fn note_field(
    ranks: &[u16],
    lefts: &Run,
    starts: &Run,
    from: usize,
    found: InputId,
    place: usize,
    field: usize,
    places: &mut [u16],
    ids: &mut [u8],
    n: usize,
) -> usize
    requires { LeftRun lefts.now starts.now × RunRanked ranks.now lefts.now × (from ≤ length lefts.now) × NoteRoom places.old ids.old (n + (length lefts.now - from) + 1) × (found.0 < length ranks.now) × (found.0 < most_walked) × (place < most_walked) × (field < most_walked) }
    ensures { FieldAdded ranks.now (left_notes lefts.now starts.now) (record { id = found.0; place = place; field = field }) from (length lefts.now) places.old ids.old n places.new ids.new result }
{
    let normal = normal_of(ranks, found);
    let next = note_left(ranks, lefts, starts, from, normal.0, places, ids, n);
    note(places, ids, n + (next - from), found, place, field);
    next
}

// Notes the members of an object in the order of their normal ids: its places that are present, under the fields between
// two positions, and its leftover's members. Answers how many there are.
pub fn note_fields(
    ranks: &[u16],
    schema: &[u8],
    table: &[u16],
    from: usize,
    to: usize,
    lefts: &Run,
    starts: &Run,
    body: &[u8],
    places: &mut [u16],
    ids: &mut [u8],
) -> usize
    requires some_members { SomeMembers ranks.now schema.now table.now from to lefts.now body.now × LeftRun lefts.now starts.now }
    requires schema_len_bound { (length schema.now ≤ most_schema) × (length body.now ≤ most_row) × (2 * length lefts.now + length body.now ≤ length places.old) × (2 * length lefts.now + length body.now ≤ length ids.old) }
    ensures { (columns : SchemaFields) (levels : ℕ) → FieldsStand levels schema.now from to columns → Noted (member_notes ranks.now (field_notes columns schema.now table.now from 0 (pieces_in body.now)) (left_notes lefts.now starts.now)) places.new ids.new result }
{
    let mut n = 0;
    let mut left = 0;
    let mut field = from;
    let mut at = 0;
    // Frames are of many lengths, so their places are no range.
    while field < to {
        let Some(end) = place_frame(body, at) else {
            return n;
        };
        let behind = frame_end(schema, field);
        if at + 3 < end {
            let Some(found) = field_id(table, field) else {
                return n;
            };
            let next = note_field(ranks, lefts, starts, left, found, at, field, places, ids, n);
            n = n + (next - left) + 1;
            left = next;
        }
        at = end;
        field = behind;
    }
    let last = note_left(ranks, lefts, starts, left, 65536, places, ids, n);
    n + (last - left)
}
