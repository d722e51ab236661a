// A lent schema judged, node by node.
ghost use Rattle.std.specs.Prelude.{◌≡◌, ◌≤◌, length};
ghost use Rattle.paper.specs.Schemas.{column_of, schema_of};
ghost use Rattle.paper.specs.Words.{part, is_there};
ghost use Rattle.schemas.specs.Positions.{field_node, field_within, follows_at, node_in, object_in};

use crate::framing::{frame_end, tagged_within};
use crate::readers::{field_name, field_node};
use paper::MOST_LEVELS;

// A field's frame is whole, and so is the name's that opens it.
fn field_within(s: &[u8], place: usize, end: usize) -> bool
    requires { (place ≤ end) × (end ≤ length s.now) }
    ensures { result ≡ field_within s.now place end }
{
    tagged_within(s, place, end, 0x31) && tagged_within(s, place + 3, frame_end(s, place), 0x32)
}

// A field is the first one, or its name comes behind that of the field before it.
fn follows(s: &[u8], last: usize, place: usize) -> bool
    requires { (field_node s.now last ≤ length s.now) × (field_node s.now place ≤ length s.now) }
    ensures { result ≡ follows_at s.now last place }
{
    last == place || order::is_before(field_name(s, last), field_name(s, place))
}

// A column's body is one type code.
fn column_good(s: &[u8], from: usize, to: usize) -> bool
    requires { (from ≤ to) × (to ≤ length s.now) }
    ensures { result ≡ is_there (column_of (part s.now from to)) }
{
    to - from == 1 && cells::column_code(s[from])
}

// An object's body: one field or more, names rising strictly.
#[cycle(fields_node)]
fn fields(levels: usize, s: &[u8], from: usize, to: usize) -> bool
    requires { (from ≤ to) × (to ≤ length s.now) }
    ensures { result ≡ is_there (object_in levels s.now from to) }
{
    let mut last = from;
    let mut place = from;
    // Frames are of many lengths, so their places are no range.
    while place < to {
        if !field_within(s, place, to) {
            return false;
        }
        if !follows(s, last, place) {
            return false;
        }
        let next = frame_end(s, place);
        if !node(levels, s, field_node(s, place), next) {
            return false;
        }
        last = place;
        place = next;
    }
    from != to
}

// One node fills a part of the schema, within so many levels.
#[cycle(fields_node)]
fn node(levels: usize, s: &[u8], from: usize, to: usize) -> bool
    requires { (from ≤ to) × (to ≤ length s.now) }
    ensures { result ≡ is_there (node_in levels s.now from to) }
{
    if levels == 0 {
        return false;
    }
    if to - from < 3 {
        return false;
    }
    let body = from + 3;
    if to - body != numbers::read(s, from + 1, 2) {
        return false;
    }
    match s[from] {
        0x00 => body == to,
        0x10 => column_good(s, body, to),
        0x20 => node(levels - 1, s, body, to),
        0x30 => fields(levels - 1, s, body, to),
        _ => false,
    }
}

// A lent schema keeps its rules.
pub fn good(schema: &[u8]) -> bool
    ensures { result ≡ is_there (schema_of schema.now) }
{
    node(MOST_LEVELS, schema, 0, schema.len())
}
