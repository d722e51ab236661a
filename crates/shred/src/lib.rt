// A lawful document's row written under a good schema: refusal 8, the 9 of one buffer, and what is written.
//
// The document is normalised into scratch, its normal value is cut along the schema into a room, and what stands there is
// handed out, so that the row's length is known before a byte of the caller's buffer is touched. Scratch goes by the
// document's lengths, so that a small document does not pay for a full-size one. A scalar that is its own normal form needs
// none of it.
#![tactic(auto)]

mod single;

ghost use Rattle.std.specs.Prelude.{true, ◌≡◌, ◌*◌, ◌≤◌, length, min};
ghost use Rattle.dictionary.specs.Lent.{LentBytes};
ghost use Rattle.normalise.specs.Answered.{Lent};
ghost use Rattle.paper.specs.Limits.{most_levels, most_metadata, most_row, most_schema, most_value};
ghost use Rattle.paper.specs.Meaning.{Doc};
ghost use Rattle.paper.specs.Operations.{row_outcome};
ghost use Rattle.paper.specs.Schemas.{Schema, schema_of};
ghost use Rattle.paper.specs.Values.{meaning_of};
ghost use Rattle.paper.specs.Words.{is_there};
ghost use Rattle.handing.specs.Handing.{RowAnswered};

use crate::single::{shred_alone, stands_alone};
use dictionary::Dictionary;
use handing::with_tables;
use normalise::normalise;
use paper::{RowAnswer, Unwritten};

// Normalises the document into scratch of some sizes, and goes on with its normal form, unless that is too large.
fn in_scratch<const NAMES: usize, const VALUE: usize, const ROOM: usize>(
    schema: &[u8],
    dictionary: &Dictionary,
    value: &[u8],
    row: &mut [u8],
) -> RowAnswer
    requires { Lent dictionary.now value.now × (is_there (schema_of schema.now) ≡ true) × (length schema.now ≤ most_schema) × LentBytes dictionary.now × (dictionary.now.size ≤ NAMES) × (NAMES ≤ most_metadata) × (min (2 * length value.now) most_value ≤ VALUE) × (VALUE ≤ most_value) × (ROOM ≤ most_row) }
    ensures { (node : Schema) (d : Doc) → schema_of schema.now ≡ Some node → meaning_of most_levels dictionary.now.names value.now ≡ Some d → RowAnswered (row_outcome node d) row.old row.new result }
{
    let mut normal_metadata = [0u8; NAMES];
    let mut normal_value = [0u8; VALUE];
    let answer = normalise(dictionary, value, &mut normal_metadata, &mut normal_value);
    match answer {
        Ok(lengths) => with_tables(
            schema,
            &normal_metadata[..lengths.metadata],
            &normal_value[..lengths.value],
            &mut [0u16; NAMES],
            &mut [0u16; VALUE],
            &mut [0u8; VALUE],
            &mut [0u8; ROOM],
            row,
        ),
        Err(Unwritten::Refused(refusal)) => Err(Unwritten::Refused(refusal)),
        // There is room.
        Err(Unwritten::Short(_)) => unreachable!(),
    }
}

// By way of scratch that goes by the sizes of the dictionary and of the value.
fn by_lengths(schema: &[u8], dictionary: &Dictionary, value: &[u8], row: &mut [u8]) -> RowAnswer
    requires { Lent dictionary.now value.now × (is_there (schema_of schema.now) ≡ true) × (length schema.now ≤ most_schema) }
    ensures { (node : Schema) (d : Doc) → schema_of schema.now ≡ Some node → meaning_of most_levels dictionary.now.names value.now ≡ Some d → RowAnswered (row_outcome node d) row.old row.new result }
{
    let size = dictionary.size();
    if 2048 < size {
        return in_scratch::<16384, 16384, 65535>(schema, dictionary, value, row);
    }
    if 2048 < value.len() {
        return in_scratch::<2048, 16384, 65535>(schema, dictionary, value, row);
    }
    if 256 < size || 256 < value.len() {
        return in_scratch::<2048, 4096, 8192>(schema, dictionary, value, row);
    }
    in_scratch::<256, 512, 1024>(schema, dictionary, value, row)
}

// Writes the row of a lawful document under a good schema.
pub fn shred(schema: &[u8], dictionary: &Dictionary, value: &[u8], row: &mut [u8]) -> RowAnswer
    requires { Lent dictionary.now value.now × (is_there (schema_of schema.now) ≡ true) × (length schema.now ≤ most_schema) }
    ensures { (node : Schema) (d : Doc) → schema_of schema.now ≡ Some node → meaning_of most_levels dictionary.now.names value.now ≡ Some d → RowAnswered (row_outcome node d) row.old row.new result }
{
    if stands_alone(value) {
        return shred_alone(schema, value, row);
    }
    by_lengths(schema, dictionary, value, row)
}
