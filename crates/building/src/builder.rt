// A place written with all that is inside it, last part first. The place writer and the writers of a list and of an object call
// each other, the levels left and the bytes left falling. What is to be written is noted in tables that are lent from hand to
// hand: a writer notes its own in front and lends the rest.
ghost use Rattle.std.specs.Prelude.{length};
ghost use Rattle.paper.specs.Normal.{array_bytes};
ghost use Rattle.paper.specs.Schemas.{Schema, SchemaFields};
ghost use Rattle.putting.specs.Put.{Room, PutAs};
ghost use Rattle.rebuilt.specs.Members.{Member, object_of};
ghost use Rattle.rebuilt.specs.Rebuilt.{place_rebuilt, typed_rebuilt};
ghost use Rattle.schemas.specs.Positions.{Stands, FieldsStand};
ghost use Rattle.building.specs.Building.{PlaceReady, TypedReady, ElementsReady, MembersReady, MemberReady, SomeMember, NotesReady, elements_rebuilt, members_rebuilt};

use heads::Readings;
use noting::{note_elements, note_fields, spot};
use paper::Reading;
use places::{Parts, place_frame, split};
use runs::Run;
use schemas::Kind;

// What is the same at every place of a row: the readings of first bytes, each id's rank in the document, a good schema, and the
// table of its fields' ids.
#[derive(Drop)]
pub struct Build<'a> {
    pub readings: &'a Readings,
    pub ranks: &'a [u16],
    pub schema: &'a [u8],
    pub table: &'a [u16],
}

impl<'a> Build<'a> {
    // A place under a node, by the body of its frame.
    #[cycle(list_places_member_noted_places_object_places_place_typed)]
    pub fn place(
        &self,
        levels: usize,
        node: usize,
        body: &[u8],
        places: &mut [u16],
        ids: &mut [u8],
        out: &mut [u8],
        floor: usize,
        end: usize,
    ) -> Option<usize>
        requires { Room out.old floor end × PlaceReady levels self.now.ranks.now self.now.schema.now self.now.table.now node body.now (length places.old) (length ids.old) floor }
        ensures { (under : Schema) → Stands levels self.now.schema.now node under → PutAs (place_rebuilt under levels self.now.ranks.now self.now.schema.now self.now.table.now node body.now) out.old out.new floor end result }
    {
        match split(body) {
            Parts::Empty => putting::null(out, floor, end),
            Parts::Leftover => {
                let left = &body[3..];
                putting::leftover(levels, self.readings, self.ranks, left, out, floor, end)
            }
            Parts::Typed => {
                let left = [0x02u8, 0x00, 0x00];
                let inner = &body[3..];
                self.typed(levels, node, &left, inner, places, ids, out, floor, end)
            }
            Parts::Both(middle) => {
                let left = &body[3..middle];
                let inner = &body[middle + 3..];
                self.typed(levels, node, left, inner, places, ids, out, floor, end)
            }
            Parts::Unframed => Some(end),
        }
    }

    // What is typed under a node, beside a leftover object, which may be empty.
    #[cycle(list_places_member_noted_places_object_places_place_typed)]
    fn typed(
        &self,
        levels: usize,
        node: usize,
        left: &[u8],
        body: &[u8],
        places: &mut [u16],
        ids: &mut [u8],
        out: &mut [u8],
        floor: usize,
        end: usize,
    ) -> Option<usize>
        requires { Room out.old floor end × TypedReady levels self.now.ranks.now self.now.schema.now self.now.table.now node left.now body.now (length places.old) (length ids.old) floor }
        ensures { (under : Schema) → Stands levels self.now.schema.now node under → PutAs (typed_rebuilt under levels self.now.ranks.now self.now.schema.now self.now.table.now node left.now body.now) out.old out.new floor end result }
    {
        match schemas::kind_at(self.schema, node) {
            Kind::Leftover => Some(end),
            Kind::Column(code) => putting::cell(code, body, out, floor, end),
            Kind::List => {
                self.list_places(levels - 1, node + 3, body, places, ids, out, floor, end)
            }
            Kind::Fields => {
                let from = node + 3;
                let to = schemas::frame_end(self.schema, node);
                self.object_places(
                    levels - 1,
                    from,
                    to,
                    left,
                    body,
                    places,
                    ids,
                    out,
                    floor,
                    end,
                )
            }
        }
    }

    // A list's places as an array: its elements, last to first, and then its head.
    #[cycle(list_places_member_noted_places_object_places_place_typed)]
    fn list_places(
        &self,
        levels: usize,
        node: usize,
        body: &[u8],
        places: &mut [u16],
        ids: &mut [u8],
        out: &mut [u8],
        floor: usize,
        end: usize,
    ) -> Option<usize>
        requires { Room out.old floor end × ElementsReady levels self.now.ranks.now self.now.schema.now self.now.table.now node body.now (length places.old) (length ids.old) floor }
        ensures { (element : Schema) → Stands levels self.now.schema.now node element → PutAs (array_bytes (elements_rebuilt element levels self.now.ranks.now self.now.schema.now self.now.table.now node body.now)) out.old out.new floor end result }
    {
        let count = note_elements(body, places);
        let mut start = end;
        for i in (0..count).rev() {
            let at = spot(places, i);
            let to = place_frame(body, at)?;
            let inner = &body[at + 3..to];
            let rest = &mut places[count..];
            start = self.place(levels, node, inner, rest, ids, out, floor, start)?;
        }
        putting::array(self.readings, count, out, floor, start, end)
    }

    // One member of an object: a leftover's, which has no field, or a place.
    #[cycle(list_places_member_noted_places_object_places_place_typed)]
    fn member(
        &self,
        levels: usize,
        area: &[u8],
        body: &[u8],
        at: usize,
        field: usize,
        places: &mut [u16],
        ids: &mut [u8],
        out: &mut [u8],
        floor: usize,
        end: usize,
    ) -> Option<usize>
        requires { Room out.old floor end × SomeMember levels self.now.ranks.now self.now.schema.now self.now.table.now area.now body.now (length places.old) (length ids.old) floor at field }
        ensures { (one : Member) → MemberReady levels self.now.ranks.now self.now.schema.now self.now.table.now area.now body.now (length places.old) (length ids.old) floor at field one → PutAs one.bytes out.old out.new floor end result }
    {
        if field == 0 {
            let size = containers::child_extent(self.readings, area, at)?;
            let left = &area[at..at + size];
            return putting::leftover(levels, self.readings, self.ranks, left, out, floor, end);
        }
        let to = place_frame(body, at)?;
        let inner = &body[at + 3..to];
        let node = schemas::field_node(self.schema, field);
        self.place(levels, node, inner, places, ids, out, floor, end)
    }

    // An object of the members that were noted: each, last to first, and then its head.
    #[cycle(list_places_member_noted_places_object_places_place_typed)]
    fn noted_places(
        &self,
        levels: usize,
        area: &[u8],
        body: &[u8],
        count: usize,
        places: &mut [u16],
        ids: &mut [u8],
        out: &mut [u8],
        floor: usize,
        end: usize,
    ) -> Option<usize>
        requires { Room out.old floor end × NotesReady levels self.now.ranks.now self.now.schema.now self.now.table.now area.now body.now places.old ids.old count floor }
        ensures { (ready : NotesReady levels self.now.ranks.now self.now.schema.now self.now.table.now area.now body.now places.old ids.old count floor) → PutAs (object_of self.now.ranks.now ready.all) out.old out.new floor end result }
    {
        let used = 2 * count;
        let mut start = end;
        for i in (0..count).rev() {
            let at = spot(places, 2 * i);
            let field = spot(places, 2 * i + 1);
            start = self.member(
                levels,
                area,
                body,
                at,
                field,
                &mut places[used..],
                &mut ids[used..],
                out,
                floor,
                start,
            )?;
        }
        let members = Run::new(ids, 2, count);
        putting::object(self.readings, self.ranks, &members, out, floor, start, end)
    }

    // An object's places and its leftover's members as one object.
    #[cycle(list_places_member_noted_places_object_places_place_typed)]
    fn object_places(
        &self,
        levels: usize,
        from: usize,
        to: usize,
        left: &[u8],
        body: &[u8],
        places: &mut [u16],
        ids: &mut [u8],
        out: &mut [u8],
        floor: usize,
        end: usize,
    ) -> Option<usize>
        requires { Room out.old floor end × MembersReady levels self.now.ranks.now self.now.schema.now self.now.table.now from to left.now body.now (length places.old) (length ids.old) floor }
        ensures { (columns : SchemaFields) → FieldsStand levels self.now.schema.now from to columns → PutAs (object_of self.now.ranks.now (members_rebuilt columns levels self.now.ranks.now self.now.schema.now self.now.table.now from left.now body.now)) out.old out.new floor end result }
    {
        let Reading::ObjectHead { count, id, offset } = self.readings.of(left[0]) else {
            return None;
        };
        let object = containers::object(left, count, id, offset);
        let noted = note_fields(
            self.ranks,
            self.schema,
            self.table,
            from,
            to,
            &object.ids,
            &object.starts,
            body,
            places,
            ids,
        );
        let area = object.area;
        self.noted_places(levels, area, body, noted, places, ids, out, floor, end)
    }
}
