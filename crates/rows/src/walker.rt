// A place judged with all that is inside it. The place judge and the list and object walkers call each other, the levels left
// and the bytes left falling. What a place's own rules ask of its leftover is judged outside the cycle (`leftovers`).
ghost use Rattle.std.specs.Prelude.{◌≡◌, ◌≤◌, length};
ghost use Rattle.paper.specs.Bounds.{most_walked};
ghost use Rattle.paper.specs.Schemas.{Schema, SchemaFields};
ghost use Rattle.schemas.specs.Positions.{Stands, FieldsStand};
ghost use Rattle.places.specs.Verdicts.{typed_verdict, place_verdict, elements_verdict, members_verdict};
ghost use Rattle.places.specs.Walking.{NodeReady, FieldsReady};

use crate::quick::plainly_lawful;
use dictionary::Dictionary;
use heads::Readings;
use places::{
    Parts, Verdict, alone, beside, broken_if, nameless, parsed, place_frame, split, worse,
};
use schemas::Kind;

// What is the same at every place of a row: the readings of first bytes, the row's dictionary, a good schema, and the table of
// its fields' ids.
#[derive(Drop)]
pub struct Walk<'a> {
    pub readings: &'a Readings,
    pub dictionary: &'a Dictionary<'a>,
    pub schema: &'a [u8],
    pub table: &'a [u16],
}

impl<'a> Walk<'a> {
    // A place under a node, by the body of its frame.
    #[cycle(held_list_places_object_places_place_typed)]
    pub fn place(&self, levels: usize, node: usize, body: &[u8]) -> Verdict
        requires { NodeReady levels self.now.dictionary.now.names self.now.schema.now self.now.table.now node × (length body.now ≤ most_walked) }
        ensures { (under : Schema) → Stands levels self.now.schema.now node under → result ≡ place_verdict under levels self.now.dictionary.now.names body.now }
    {
        match split(body) {
            Parts::Empty => Verdict::Lawful,
            Parts::Leftover => alone(
                levels,
                self.readings,
                self.dictionary,
                self.schema,
                node,
                &body[3..],
            ),
            Parts::Typed => self.typed(levels, node, &body[3..]),
            Parts::Both(middle) => {
                let right = self.typed(levels, node, &body[middle + 3..]);
                beside(
                    levels,
                    self.readings,
                    self.dictionary,
                    self.schema,
                    node,
                    &body[3..middle],
                    right,
                )
            }
            Parts::Unframed => Verdict::Unparsed,
        }
    }

    // What is typed under a node.
    #[cycle(held_list_places_object_places_place_typed)]
    fn typed(&self, levels: usize, node: usize, body: &[u8]) -> Verdict
        requires { NodeReady levels self.now.dictionary.now.names self.now.schema.now self.now.table.now node × (length body.now ≤ most_walked) }
        ensures { (under : Schema) → Stands levels self.now.schema.now node under → result ≡ typed_verdict under levels self.now.dictionary.now.names body.now }
    {
        match schemas::kind_at(self.schema, node) {
            Kind::Leftover => Verdict::Unparsed,
            Kind::Column(code) => parsed(cells::good(code, body)),
            Kind::List => self.list_places(levels - 1, node + 3, body),
            Kind::Fields => {
                let to = schemas::frame_end(self.schema, node);
                self.object_places(levels - 1, node + 3, to, body)
            }
        }
    }

    // A place that a list or an object holds, by the body of its frame: the quick look first.
    #[cycle(held_list_places_object_places_place_typed)]
    fn held(&self, levels: usize, node: usize, body: &[u8]) -> Verdict
        requires { NodeReady levels self.now.dictionary.now.names self.now.schema.now self.now.table.now node × (length body.now ≤ most_walked) }
        ensures { (under : Schema) → Stands levels self.now.schema.now node under → result ≡ place_verdict under levels self.now.dictionary.now.names body.now }
    {
        if plainly_lawful(self.schema, node, body) {
            return Verdict::Lawful;
        }
        self.place(levels, node, body)
    }

    // A list's places, each under the element node.
    #[cycle(held_list_places_object_places_place_typed)]
    fn list_places(&self, levels: usize, node: usize, body: &[u8]) -> Verdict
        requires { NodeReady levels self.now.dictionary.now.names self.now.schema.now self.now.table.now node × (length body.now ≤ most_walked) }
        ensures { (element : Schema) → Stands levels self.now.schema.now node element → result ≡ elements_verdict element levels self.now.dictionary.now.names body.now }
    {
        let mut verdict = Verdict::Lawful;
        let mut at = 0;
        // Frames are of many lengths, so their places are no range.
        while at < body.len() {
            let Some(end) = place_frame(body, at) else {
                return Verdict::Unparsed;
            };
            let inner = at + 3;
            let one = self.held(levels, node, &body[inner..end]);
            verdict = worse(verdict, broken_if(inner == end, one));
            at = end;
        }
        verdict
    }

    // An object's places, one for each field of the node in schema order.
    #[cycle(held_list_places_object_places_place_typed)]
    fn object_places(&self, levels: usize, from: usize, to: usize, body: &[u8]) -> Verdict
        requires { FieldsReady levels self.now.dictionary.now.names self.now.schema.now self.now.table.now from to × (length body.now ≤ most_walked) }
        ensures { (columns : SchemaFields) → FieldsStand levels self.now.schema.now from to columns → result ≡ members_verdict columns levels self.now.dictionary.now.names body.now }
    {
        let mut verdict = Verdict::Lawful;
        let mut field = from;
        let mut at = 0;
        // Frames are of many lengths, so their places are no range.
        while field < to {
            if body.len() <= at {
                return Verdict::Unparsed;
            }
            let Some(end) = place_frame(body, at) else {
                return Verdict::Unparsed;
            };
            let inner = at + 3;
            let node = schemas::field_node(self.schema, field);
            let one = self.held(levels, node, &body[inner..end]);
            let unnamed = nameless(self.table, field, inner < end);
            verdict = worse(verdict, broken_if(unnamed, one));
            at = end;
            field = schemas::frame_end(self.schema, field);
        }
        if at < body.len() {
            return Verdict::Unparsed;
        }
        verdict
    }
}
