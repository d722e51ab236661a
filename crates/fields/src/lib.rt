// The id of each schema field's name in a dictionary, found once and kept in a table by the field's position.
//
// The functions with a `requires` are inner ones: whoever calls them has had the schema judged.
#![tactic(auto)]

ghost use Rattle.std.specs.Prelude.{true, ◌≡◌, ◌/◌, ◌≤◌, ◌<◌, length, set};
ghost use Rattle.paper.specs.Bounds.{most_names, most_walked};
ghost use Rattle.paper.specs.Schemas.{Schema, schema_of};
ghost use Rattle.paper.specs.Words.{is_there};
ghost use Rattle.lookup.specs.Looking.{Ordered};
ghost use Rattle.schemas.specs.Positions.{field_node, field_name};
ghost use Rattle.fields.specs.Telling.{entry_of, entry_place, looked_at, names_fields, Told, Noted};

use dictionary::{Dictionary, InputId};
use lookup::look_up;
use schemas::{field_name, field_node, next_frame};

// An answer as an entry.
fn entry_of(looked: Option<InputId>) -> usize
    requires { entry_of looked < most_walked }
    ensures { result ≡ entry_of looked }
{
    match looked {
        Some(id) => id.0 + 1,
        None => 0,
    }
}

// Makes an answer the entry of the field at a position.
fn enter(table: &mut [u16], place: usize, looked: Option<InputId>)
    requires { (entry_place place < length table.old) × (entry_of looked < most_walked) }
    ensures { table.new ≡ set table.old (entry_place place) (entry_of looked) }
{
    table[place / 9] = entry_of(looked) as u16;
}

// The id of the field at a position.
pub fn field_id(table: &[u16], place: usize) -> Option<InputId>
    requires { entry_place place < length table.now }
    ensures { result ≡ looked_at table.now place }
{
    match table[place / 9] {
        0 => None,
        entry => Some(InputId(entry as usize - 1)),
    }
}

// Looks the name of the field at a position up, and makes the answer its entry.
fn note(schema: &[u8], place: usize, dictionary: &Dictionary, order: &[u16], table: &mut [u16])
    requires { (field_node schema.now place ≤ length schema.now) × (entry_place place < length table.old) × (length dictionary.now.names ≤ most_names) × Ordered dictionary.now order.now }
    ensures { Noted dictionary.now.names (field_name schema.now place) place table.old table.new }
{
    let looked = look_up(dictionary, order, field_name(schema, place));
    enter(table, place, looked);
}

// Whether a good schema names fields, and so whether there is anything to find: by the first node that is no list.
pub fn names_fields(schema: &[u8]) -> bool
    requires { is_there (schema_of schema.now) ≡ true }
    ensures { (node : Schema) → schema_of schema.now ≡ Some node → result ≡ names_fields node }
{
    let mut place = 0;
    // How many lists stand around the first other node is not known before.
    while schema[place] == 0x20 {
        place += 3;
    }
    schema[place] == 0x30
}

// Finds the id of each field of a good schema, in one scan of it.
pub fn fill(schema: &[u8], dictionary: &Dictionary, order: &[u16], table: &mut [u16])
    requires { (is_there (schema_of schema.now) ≡ true) × (length schema.now / 9 ≤ length table.old) × (length dictionary.now.names ≤ most_names) × Ordered dictionary.now order.now }
    ensures { (node : Schema) → schema_of schema.now ≡ Some node → Told dictionary.now.names schema.now table.new node 0 }
{
    let mut place = 0;
    // Frames are of many lengths, so their places are no range.
    while place < schema.len() {
        if schema[place] == 0x31 {
            note(schema, place, dictionary, order, table);
            place = field_node(schema, place);
        } else {
            place = next_frame(schema, place);
        }
    }
}
