// Fields that are all missing: an empty place for each.
ghost use Rattle.std.specs.Prelude.{ℕ, ◌≤◌, length};
ghost use Rattle.clashes.specs.Shared.{SomeFields};
ghost use Rattle.paper.specs.Limits.{most_row};
ghost use Rattle.paper.specs.Schemas.{SchemaFields};
ghost use Rattle.putting.specs.Put.{Room, PutAs};
ghost use Rattle.schemas.specs.Positions.{FieldsStand};
ghost use Rattle.cutting.specs.Cutting.{empties};

// The places of the fields between two positions, where none is present.
pub fn missing(schema: &[u8], from: usize, to: usize, out: &mut [u8], end: usize) -> Option<usize>
    requires { Room out.old 0 end × (length out.old ≤ most_row) × SomeFields schema.now from to }
    ensures { (levels : ℕ) (columns : SchemaFields) → FieldsStand levels schema.now from to columns → PutAs (empties columns) out.old out.new 0 end result }
{
    let mut start = end;
    let mut field = from;
    // Frames are of many lengths, so their places are no range.
    while field < to {
        start = enclosing::empty(out, start)?;
        field = schemas::frame_end(schema, field);
    }
    Some(start)
}
