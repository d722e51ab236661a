// A document that is a scalar in its normal form needs no scratch but the room for its place.
ghost use Rattle.std.specs.Prelude.{◌≡◌, ◌≤◌, length};
ghost use Rattle.handing.specs.Handing.{RowAnswered, Alone};
ghost use Rattle.paper.specs.Limits.{most_value};
ghost use Rattle.paper.specs.Operations.{row_outcome};
ghost use Rattle.shred.specs.Alone.{stands_alone};

use paper::RowAnswer;

// A value is a scalar, and its own normal form: any but a string of at most 63 bytes that has its length in front.
#[tactic(auto, unfolding(crate::specs::Alone::stands_alone))]
pub fn stands_alone(value: &[u8]) -> bool
    requires { 1 ≤ length value.now }
    ensures { result ≡ stands_alone value.now }
{
    let first = value[0];
    first % 4 < 2 && (first != 0x40 || 68 < value.len())
}

// Its row, by way of a room that goes by its length.
pub fn shred_alone(schema: &[u8], value: &[u8], row: &mut [u8]) -> RowAnswer
    requires { Alone schema.now value.now × (length value.now ≤ most_value) }
    ensures { (alone : Alone schema.now value.now) → RowAnswered (row_outcome alone.normal.node alone.normal.d) row.old row.new result }
{
    if value.len() <= 250 {
        let mut room = [0u8; 256];
        return handing::alone(schema, value, &mut room, row);
    }
    let mut room = [0u8; 16390];
    handing::alone(schema, value, &mut room, row)
}
