// The fields of a node passed over on the way to a member's id: both rise.
ghost use Rattle.std.specs.Prelude.{◌≡◌, ◌/◌, ◌≤◌, ◌<◌, length};
ghost use Rattle.fields.specs.Telling.{entry_place, looked_at};
ghost use Rattle.remainder.specs.Passing.{reaches_id, names_id, Fielded, AllPassed};

use fields::field_id;

// The field at a position has an id of so much at least.
fn reaches(table: &[u16], place: usize, id: usize) -> bool
    requires { entry_place place < length table.now }
    ensures { result ≡ reaches_id (looked_at table.now place) id }
{
    field_id(table, place).is_some_and(|found| id <= found.0)
}

// The first field, from a position on, that has an id of so much at least; or where the fields end.
pub fn pass(schema: &[u8], table: &[u16], from: usize, to: usize, id: usize) -> usize
    requires { Fielded schema.now table.now from to × (length schema.now / 9 ≤ length table.now) }
    ensures { AllPassed schema.now table.now from to id result }
{
    let mut place = from;
    // Frames are of many lengths, so their places are no range.
    while place < to && !reaches(table, place, id) {
        place = schemas::frame_end(schema, place);
    }
    place
}

// The field at a position, if there is one, has an id.
pub fn names_id(table: &[u16], place: usize, to: usize, id: usize) -> bool
    requires { place < to → entry_place place < length table.now }
    ensures { result ≡ names_id table.now place to id }
{
    place < to && field_id(table, place).is_some_and(|found| found.0 == id)
}
