// A document that is a scalar alone: it has no names, and only the outermost node bears on it.
ghost use Rattle.std.specs.Prelude.{◌+◌, ◌≤◌, length};
ghost use Rattle.paper.specs.Limits.{most_row};
ghost use Rattle.paper.specs.Normal.{names_used};
ghost use Rattle.paper.specs.Operations.{row_outcome};
ghost use Rattle.paper.specs.Shredding.{cut, place_bytes};
ghost use Rattle.putting.specs.Put.{Room, PutAs};
ghost use Rattle.handing.specs.Handing.{RowAnswered, Alone};

use crate::rooms::hand_out;
use heads::Readings;
use paper::RowAnswer;
use schemas::Kind;

// Its place: typed where the node is a column of its type, else left over.
fn outermost(schema: &[u8], value: &[u8], out: &mut [u8], end: usize) -> Option<usize>
    requires { Alone schema.now value.now × Room out.old 0 end × (length out.old ≤ most_row) }
    ensures { (alone : Alone schema.now value.now) → PutAs (place_bytes (names_used alone.normal.d) (cut alone.normal.node alone.normal.d)) out.old out.new 0 end result }
{
    match schemas::kind_at(schema, 0) {
        Kind::Column(code) => enclosing::column(&Readings::new(), code, value, out, end),
        Kind::Leftover | Kind::List | Kind::Fields => enclosing::place(0x41, value, out, end),
    }
}

// Its row, by way of a room that has six bytes more than it.
pub fn alone(schema: &[u8], value: &[u8], room: &mut [u8], row: &mut [u8]) -> RowAnswer
    requires { Alone schema.now value.now × (6 + length value.now ≤ length room.old) × (length room.old ≤ most_row) }
    ensures { (alone : Alone schema.now value.now) → RowAnswered (row_outcome alone.normal.node alone.normal.d) row.old row.new result }
{
    let end = room.len();
    // There is room.
    let start = outermost(schema, value, room, end).unwrap();
    hand_out(&[0x11, 0x00, 0x00], &room[start..end], row)
}
