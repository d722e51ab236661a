// The id of a schema field that is present.
ghost use Rattle.std.specs.Prelude.{[], ◌≡◌, ◌<◌, length};
ghost use Rattle.dictionary.specs.declared.ids.InputId.{InputId};
ghost use Rattle.fields.specs.Telling.{entry_place, looked_at};
ghost use Rattle.marking.specs.Ids.{mark_ids};
ghost use Rattle.rebuilt.specs.Using.{add_id};

use fields::field_id;
use marking::mark_id;

// Marks the id of the field at a position if its place has bytes.
pub fn mark_field(table: &[u16], field: usize, body: &[u8], used: &mut [u8])
    requires { (entry_place field < length table.now) × ((id : InputId) → looked_at table.now field ≡ Some id → id.0 < length used.old) }
    ensures { used.new ≡ mark_ids used.old (add_id body.now (looked_at table.now field) []) }
{
    if body.is_empty() {
        return;
    }
    if let Some(id) = field_id(table, field) {
        mark_id(used, id);
    }
}
