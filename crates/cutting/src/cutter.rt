// A value cut along a node. The place writer and the writers of a list and of an object call each other, the levels left falling;
// an object's places are written last field first, each call having those behind its field written before its own.
ghost use Rattle.std.specs.Prelude.{◌≤◌, length};
ghost use Rattle.paper.specs.Limits.{most_row};
ghost use Rattle.putting.specs.Put.{Room, PutAs};
ghost use Rattle.cutting.specs.Cutting.{PlaceReady, place_cut, ListReady, list_cut, ObjectReady, object_cut, FieldsReady, fields_cut};

use crate::missing::missing;
use crate::passing::{is_member, member_from};
use heads::Readings;
use members::{Members, members_of, part_at};
use paper::Reading;
use schemas::Kind;

// What stays the same in a document that is cut: the readings of first bytes, each id's normal id, the schema, and the table
// that tells of its fields.
#[derive(Drop)]
pub struct Basis<'a> {
    pub readings: &'a Readings,
    pub ranks: &'a [u16],
    pub schema: &'a [u8],
    pub table: &'a [u16],
}

// A value under a node.
#[cycle(fields_list_place_object_place_place)]
pub fn place(
    basis: &Basis,
    levels: usize,
    node: usize,
    s: &[u8],
    notes: &mut [u16],
    ids: &mut [u8],
    out: &mut [u8],
    end: usize,
) -> Option<usize>
    requires { Room out.old 0 end × (length out.old ≤ most_row) × PlaceReady levels basis.now.ranks.now basis.now.schema.now basis.now.table.now node s.now (length notes.old) (length ids.old) }
    ensures { (ready : PlaceReady levels basis.now.ranks.now basis.now.schema.now basis.now.table.now node s.now (length notes.old) (length ids.old)) → PutAs (place_cut ready) out.old out.new 0 end result }
{
    match schemas::kind_at(basis.schema, node) {
        Kind::Leftover => enclosing::place(0x41, s, out, end),
        Kind::Column(code) => enclosing::column(basis.readings, code, s, out, end),
        Kind::List => list_place(basis, levels - 1, node + 3, s, notes, ids, out, end),
        Kind::Fields => {
            let to = schemas::frame_end(basis.schema, node);
            object_place(basis, levels - 1, node + 3, to, s, notes, ids, out, end)
        }
    }
}

// A value under a list's node: an array's elements, last to first, and then the heads; another value is a leftover.
#[cycle(fields_list_place_object_place_place)]
fn list_place(
    basis: &Basis,
    levels: usize,
    node: usize,
    s: &[u8],
    notes: &mut [u16],
    ids: &mut [u8],
    out: &mut [u8],
    end: usize,
) -> Option<usize>
    requires { Room out.old 0 end × (length out.old ≤ most_row) × ListReady levels basis.now.ranks.now basis.now.schema.now basis.now.table.now node s.now (length notes.old) (length ids.old) }
    ensures { (ready : ListReady levels basis.now.ranks.now basis.now.schema.now basis.now.table.now node s.now (length notes.old) (length ids.old)) → PutAs (list_cut ready) out.old out.new 0 end result }
{
    let Reading::ArrayHead { count, offset } = basis.readings.of(s[0]) else {
        return enclosing::place(0x41, s, out, end);
    };
    let members = members_of(s, count, 0, offset);
    let mut start = end;
    for i in (0..members.count).rev() {
        let element = part_at(s, members, i);
        start = place(basis, levels, node, element, notes, ids, out, start)?;
    }
    enclosing::enclosed(0x42, out, start, end)
}

// A value under the fields between two positions: an object's places, then what is left over of it in front of them, and the
// heads; another value is a leftover.
#[cycle(fields_list_place_object_place_place)]
fn object_place(
    basis: &Basis,
    levels: usize,
    from: usize,
    to: usize,
    s: &[u8],
    notes: &mut [u16],
    ids: &mut [u8],
    out: &mut [u8],
    end: usize,
) -> Option<usize>
    requires { Room out.old 0 end × (length out.old ≤ most_row) × ObjectReady levels basis.now.ranks.now basis.now.schema.now basis.now.table.now from to s.now (length notes.old) (length ids.old) }
    ensures { (ready : ObjectReady levels basis.now.ranks.now basis.now.schema.now basis.now.table.now from to s.now (length notes.old) (length ids.old)) → PutAs (object_cut ready) out.old out.new 0 end result }
{
    let Reading::ObjectHead { count, id, offset } = basis.readings.of(s[0]) else {
        return enclosing::place(0x41, s, out, end);
    };
    let members = members_of(s, count, id, offset);
    let places = fields(basis, levels, from, to, s, members, 0, notes, ids, out, end)?;
    let typed = enclosing::head(0x42, out, places, end)?;
    let start = remainder::rest(
        basis.readings,
        basis.ranks,
        basis.schema,
        basis.table,
        from,
        to,
        s,
        members,
        notes,
        ids,
        out,
        typed,
    )?;
    enclosing::head(0x50, out, start, end)
}

// The places of the fields between two positions, from an object's members from one on.
#[cycle(fields_list_place_object_place_place)]
fn fields(
    basis: &Basis,
    levels: usize,
    from: usize,
    to: usize,
    s: &[u8],
    members: Members,
    k: usize,
    notes: &mut [u16],
    ids: &mut [u8],
    out: &mut [u8],
    end: usize,
) -> Option<usize>
    requires { Room out.old 0 end × (length out.old ≤ most_row) × FieldsReady levels basis.now.ranks.now basis.now.schema.now basis.now.table.now from to s.now members k (length notes.old) (length ids.old) }
    ensures { (ready : FieldsReady levels basis.now.ranks.now basis.now.schema.now basis.now.table.now from to s.now members k (length notes.old) (length ids.old)) → PutAs (fields_cut ready) out.old out.new 0 end result }
{
    if from == to {
        return Some(end);
    }
    if members.count <= k {
        return missing(basis.schema, from, to, out, end);
    }
    let here = member_from(basis.table, from, s, members, k);
    let next = schemas::frame_end(basis.schema, from);
    let start = fields(
        basis, levels, next, to, s, members, here, notes, ids, out, end,
    )?;
    if is_member(basis.table, from, s, members, here) {
        return place(
            basis,
            levels,
            schemas::field_node(basis.schema, from),
            part_at(s, members, here),
            notes,
            ids,
            out,
            start,
        );
    }
    enclosing::empty(out, start)
}
