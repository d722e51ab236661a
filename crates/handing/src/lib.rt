// A document's row, from its normal form: its tables are filled, its value is cut along a good schema into a room, and what
// stands there is handed out behind the metadata, so that the row's length is known before a byte of the buffer is touched.
//
// The functions with a `requires` are inner ones: whoever calls them has written the normal form and had the schema judged.
#![tactic(auto)]

mod rooms;
mod scalar;

ghost use Rattle.std.specs.Prelude.{true, ◌≡◌, ◌/◌, ◌≤◌, length};
ghost use Rattle.fields.specs.Telling.{Told};
ghost use Rattle.paper.specs.Limits.{most_row};
ghost use Rattle.paper.specs.Bounds.{most_names};
ghost use Rattle.paper.specs.Operations.{row_outcome};
ghost use Rattle.paper.specs.Schemas.{Schema, schema_of};
ghost use Rattle.paper.specs.Words.{is_there};
ghost use Rattle.handing.specs.Handing.{RowAnswered, Normalised};

use crate::rooms::with_room;
use cutting::Basis;
use dictionary::Dictionary;
use heads::Readings;
use paper::RowAnswer;
pub use scalar::alone;

// Finds the id of each field of a good schema among names that are sorted.
fn find_fields(schema: &[u8], dictionary: &Dictionary, table: &mut [u16])
    requires { (is_there (schema_of schema.now) ≡ true) × (length schema.now / 9 ≤ length table.old) × (dictionary.now.sorted ≡ true) × (length dictionary.now.names ≤ most_names) }
    ensures { (node : Schema) → schema_of schema.now ≡ Some node → Told dictionary.now.names schema.now table.new node 0 }
{
    if fields::names_fields(schema) {
        fields::fill(schema, dictionary, &[], table);
    }
}

// Fills the tables for a normal form, and writes its row.
pub fn with_tables(
    schema: &[u8],
    metadata: &[u8],
    value: &[u8],
    ranks: &mut [u16],
    notes: &mut [u16],
    ids: &mut [u8],
    room: &mut [u8],
    row: &mut [u8],
) -> RowAnswer
    requires { Normalised schema.now metadata.now value.now × (length metadata.now ≤ length ranks.old) × (length value.now ≤ length notes.old) × (length value.now ≤ length ids.old) × (length room.old ≤ most_row) }
    ensures { (normal : Normalised schema.now metadata.now value.now) → RowAnswered (row_outcome normal.node normal.d) row.old row.new result }
{
    let dictionary = dictionary::open(metadata);
    let mut table = [0u16; 456];
    find_fields(schema, &dictionary, &mut table);
    let count = dictionary.len();
    lookup::list_ids(&mut ranks[..count]);
    let basis = Basis {
        readings: &Readings::new(),
        ranks,
        schema,
        table: &table,
    };
    with_room(&basis, metadata, value, notes, ids, room, row)
}
