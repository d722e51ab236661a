// An object's members and its node's fields, both in the order of their names, side by side.
ghost use Rattle.std.specs.Prelude.{◌≡◌, ◌<◌, length};
ghost use Rattle.fields.specs.Telling.{entry_place, looked_at};
ghost use Rattle.cutting.specs.Cutting.{Run, Passed, PassedBy, is_member};

use fields::field_id;
use members::{Members, id_at};

// The first member, from one on, whose id is not below another; so many if there is none.
fn not_below(s: &[u8], members: Members, from: usize, id: usize) -> usize
    requires { Run s.now members from }
    ensures { Passed s.now members from id result }
{
    for k in from..members.count {
        if id <= id_at(s, members, k).0 {
            return k;
        }
    }
    members.count
}

// The first member, from one on, that may belong to the field at a position or to one behind it.
pub fn member_from(table: &[u16], field: usize, s: &[u8], members: Members, from: usize) -> usize
    requires { Run s.now members from × (entry_place field < length table.now) }
    ensures { PassedBy s.now members from (looked_at table.now field) result }
{
    match field_id(table, field) {
        Some(id) => not_below(s, members, from, id.0),
        None => from,
    }
}

// A member is that of the field at a position.
pub fn is_member(table: &[u16], field: usize, s: &[u8], members: Members, k: usize) -> bool
    requires { Run s.now members k × (entry_place field < length table.now) }
    ensures { result ≡ is_member s.now members k (looked_at table.now field) }
{
    if members.count <= k {
        return false;
    }
    match field_id(table, field) {
        Some(id) => id.0 == id_at(s, members, k).0,
        None => false,
    }
}
