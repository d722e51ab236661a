// Rule c: does a leftover have a name that its node names? The leftover's names rise and the node's do too, so one walk along
// both is enough.
ghost use Rattle.std.specs.Prelude.{true, [], ◌≡◌, ℕ, ◌≤◌, ◌<◌, length, get_or};
ghost use Rattle.order.specs.Before.{order_of};
ghost use Rattle.paper.specs.Meaning.{Doc};
ghost use Rattle.paper.specs.Metadata.{rising};
ghost use Rattle.paper.specs.Rules.{has_any};
ghost use Rattle.paper.specs.Schemas.{SchemaFields, column_names};
ghost use Rattle.paper.specs.Values.{names_at, meaning_of};
ghost use Rattle.paper.specs.Words.{all_below};
ghost use Rattle.paths.specs.Places.{LawfulIn};
ghost use Rattle.schemas.specs.Positions.{field_node, field_name, FieldsStand};
ghost use Rattle.clashes.specs.Shared.{shared, SomeFields};

use dictionary::{Dictionary, InputId, input_id};
use heads::Readings;
use order::compare;
use paper::Reading;
use runs::Run;
use schemas::{field_name, frame_end};
use std::cmp::Ordering;

// How the name of an id stands to that of a field.
fn stands(dictionary: &Dictionary, id: InputId, schema: &[u8], field: usize) -> Ordering
    requires { (id.0 < length dictionary.now.names) × (field_node schema.now field ≤ length schema.now) }
    ensures { result ≡ order_of (get_or dictionary.now.names id.0 []) (field_name schema.now field) }
{
    compare(dictionary.name(id), field_name(schema, field))
}

// A run of ids and the fields between two positions of a schema share a name.
fn merge(dictionary: &Dictionary, ids: &Run, schema: &[u8], from: usize, to: usize) -> bool
    requires ids_lawful { (all_below (length dictionary.now.names) ids.now ≡ true) × (rising (names_at dictionary.now.names ids.now) ≡ true) }
    requires some_fields { SomeFields schema.now from to }
    ensures { (levels : ℕ) (columns : SchemaFields) → FieldsStand levels schema.now from to columns → result ≡ shared (names_at dictionary.now.names ids.now) (column_names columns) }
{
    let mut field = from;
    let mut i = 0;
    // Ids and fields side by side, each at its own pace: no range goes along both.
    while i < ids.len() && field < to {
        match stands(dictionary, input_id(ids, i), schema, field) {
            Ordering::Less => i += 1,
            Ordering::Equal => return true,
            Ordering::Greater => field = frame_end(schema, field),
        }
    }
    false
}

// A lawful leftover has a name of the fields between two positions of a schema.
pub fn clash(
    readings: &Readings,
    dictionary: &Dictionary,
    left: &[u8],
    schema: &[u8],
    from: usize,
    to: usize,
) -> bool
    requires { LawfulIn dictionary.now.names left.now × SomeFields schema.now from to }
    ensures { (levels : ℕ) (d : Doc) → meaning_of levels dictionary.now.names left.now ≡ Some d → (inner : ℕ) (columns : SchemaFields) → FieldsStand inner schema.now from to columns → result ≡ has_any (column_names columns) d }
{
    let Reading::ObjectHead { count, id, offset } = readings.of(left[0]) else {
        return false;
    };
    let object = containers::object(left, count, id, offset);
    merge(dictionary, &object.ids, schema, from, to)
}
