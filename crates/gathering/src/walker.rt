// The ids of a place and of all that is inside it. The five walkers call each other, the levels left and the bytes left
// falling.
ghost use Rattle.std.specs.Prelude.{◌≡◌, length};
ghost use Rattle.marking.specs.Ids.{mark_ids};
ghost use Rattle.paper.specs.Schemas.{Schema, SchemaFields};
ghost use Rattle.rebuilt.specs.Rebuilt.{pieces_in};
ghost use Rattle.rebuilt.specs.Using.{place_ids, member_ids, element_ids, typed_ids};
ghost use Rattle.schemas.specs.Positions.{Stands, FieldsStand};
ghost use Rattle.gathering.specs.Gathering.{PlaceReady, TypedReady, ElementsReady, MembersReady};

use crate::plain::plain;
use crate::present::mark_field;
use heads::Readings;
use marking::mark;
use places::{Parts, place_frame, split};
use schemas::Kind;

// What is the same at every place of a row: the readings of first bytes, a good schema, and the table of its fields' ids.
#[derive(Drop)]
pub struct Walk<'a> {
    pub readings: &'a Readings,
    pub schema: &'a [u8],
    pub table: &'a [u16],
}

impl<'a> Walk<'a> {
    // A place under a node, by the body of its frame.
    #[cycle(held_list_places_object_places_place_typed)]
    pub fn place(&self, levels: usize, node: usize, body: &[u8], used: &mut [u8])
        requires { PlaceReady levels self.now.schema.now self.now.table.now node body.now (length used.old) }
        ensures { (under : Schema) → Stands levels self.now.schema.now node under → used.new ≡ mark_ids used.old (place_ids under levels self.now.schema.now self.now.table.now node body.now) }
    {
        match split(body) {
            Parts::Empty => {}
            Parts::Leftover => mark(levels, self.readings, &body[3..], used),
            Parts::Typed => self.typed(levels, node, &body[3..], used),
            Parts::Both(middle) => {
                mark(levels, self.readings, &body[3..middle], used);
                self.typed(levels, node, &body[middle + 3..], used);
            }
            Parts::Unframed => {}
        }
    }

    // What is typed under a node.
    #[cycle(held_list_places_object_places_place_typed)]
    fn typed(&self, levels: usize, node: usize, body: &[u8], used: &mut [u8])
        requires { TypedReady levels self.now.schema.now self.now.table.now node body.now (length used.old) }
        ensures { (under : Schema) → Stands levels self.now.schema.now node under → used.new ≡ mark_ids used.old (typed_ids under levels self.now.schema.now self.now.table.now node body.now) }
    {
        match schemas::kind_at(self.schema, node) {
            Kind::Leftover => {}
            Kind::Column(_) => {}
            Kind::List => self.list_places(levels - 1, node + 3, body, used),
            Kind::Fields => {
                let to = schemas::frame_end(self.schema, node);
                self.object_places(levels - 1, node + 3, to, body, used);
            }
        }
    }

    // A place inside another: most of them are plain.
    #[cycle(held_list_places_object_places_place_typed)]
    fn held(&self, levels: usize, node: usize, body: &[u8], used: &mut [u8])
        requires { PlaceReady levels self.now.schema.now self.now.table.now node body.now (length used.old) }
        ensures { (under : Schema) → Stands levels self.now.schema.now node under → used.new ≡ mark_ids used.old (place_ids under levels self.now.schema.now self.now.table.now node body.now) }
    {
        if plain(self.schema, node, body) {
            return;
        }
        self.place(levels, node, body, used);
    }

    // A list's places, each under the element node.
    #[cycle(held_list_places_object_places_place_typed)]
    fn list_places(&self, levels: usize, node: usize, body: &[u8], used: &mut [u8])
        requires { ElementsReady levels self.now.schema.now self.now.table.now node body.now (length used.old) }
        ensures { (element : Schema) → Stands levels self.now.schema.now node element → used.new ≡ mark_ids used.old (element_ids element levels self.now.schema.now self.now.table.now node (pieces_in body.now)) }
    {
        let mut at = 0;
        // Frames are of many lengths, so their places are no range.
        while at < body.len() {
            let Some(end) = place_frame(body, at) else {
                return;
            };
            let inner = at + 3;
            self.held(levels, node, &body[inner..end], used);
            at = end;
        }
    }

    // An object's places, one for each field of the node in schema order.
    #[cycle(held_list_places_object_places_place_typed)]
    fn object_places(&self, levels: usize, from: usize, to: usize, body: &[u8], used: &mut [u8])
        requires { MembersReady levels self.now.schema.now self.now.table.now from to body.now (length used.old) }
        ensures { (columns : SchemaFields) → FieldsStand levels self.now.schema.now from to columns → used.new ≡ mark_ids used.old (member_ids columns levels self.now.schema.now self.now.table.now from (pieces_in body.now)) }
    {
        let mut field = from;
        let mut at = 0;
        // Frames are of many lengths, so their places are no range.
        while field < to {
            let Some(end) = place_frame(body, at) else {
                return;
            };
            let inner = at + 3;
            let inside = &body[inner..end];
            let node = schemas::field_node(self.schema, field);
            mark_field(self.table, field, inside, used);
            self.held(levels, node, inside, used);
            at = end;
            field = schemas::frame_end(self.schema, field);
        }
    }
}
