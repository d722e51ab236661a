// Rule f: a schema field present whose name is not in the row's dictionary.
ghost use Rattle.std.specs.Prelude.{◌&&◌, ◌≡◌, ◌<◌, length};
ghost use Rattle.fields.specs.Telling.{entry_place, looked_at};
ghost use Rattle.places.specs.Walking.{is_nowhere};

use fields::field_id;

// The field at a position is present, and no id has its name.
pub fn nameless(table: &[u16], field: usize, present: bool) -> bool
    requires { entry_place field < length table.now }
    ensures { result ≡ present && is_nowhere (looked_at table.now field) }
{
    present && field_id(table, field).is_none()
}
