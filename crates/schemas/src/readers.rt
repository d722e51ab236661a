// A good schema read by position: the kind of a node, a field's name and node, the frames in order.
//
// Whoever calls these has shown that what is read stands there.
ghost use Rattle.std.specs.Prelude.{◌≡◌, ◌≤◌, length};
ghost use Rattle.schemas.specs.Positions.{field_node, field_name};
ghost use Rattle.schemas.specs.Kinds.{kind_at, KindThere};
ghost use Rattle.schemas.specs.Walk.{frame_next};

use crate::framing::frame_end;

// The kind of a node: leftover only, a column of a type code, a list, an object with fields.
#[derive(Clone, Copy)]
pub enum Kind {
    Leftover,
    Column(u8),
    List,
    Fields,
}

// The kind of the node at a position.
pub fn kind_at(schema: &[u8], place: usize) -> Kind
    requires { KindThere schema.now place }
    ensures { result ≡ kind_at schema.now place }
{
    match schema[place] {
        0x00 => Kind::Leftover,
        0x10 => Kind::Column(schema[place + 3]),
        0x20 => Kind::List,
        _ => Kind::Fields,
    }
}

// Where the node of the field at a position stands: behind the name.
pub fn field_node(schema: &[u8], place: usize) -> usize
    requires { field_node schema.now place ≤ length schema.now }
    ensures { result ≡ field_node schema.now place }
{
    frame_end(schema, place + 3)
}

// The name of the field at a position.
pub fn field_name(schema: &[u8], place: usize) -> &[u8]
    requires { field_node schema.now place ≤ length schema.now }
    ensures { result.now ≡ field_name schema.now place }
{
    let from = place + 3 + 3;
    let to = field_node(schema, place);
    &schema[from..to]
}

// The frame behind the head of the one at a position: with a field's name and a column's code passed over, the frames of
// a schema are all visited so, outer ones first.
pub fn next_frame(schema: &[u8], place: usize) -> usize
    requires { frame_next schema.now place ≤ length schema.now }
    ensures { result ≡ frame_next schema.now place }
{
    match schema[place] {
        0x31 => field_node(schema, place),
        0x10 => place + 4,
        _ => place + 3,
    }
}
