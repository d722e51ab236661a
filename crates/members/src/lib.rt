// A container in normal form: where its members stand in it, and each by its number.
//
// The functions with a `requires` are inner ones: whoever calls them has written the normal form.
#![tactic(auto)]

ghost use Rattle.std.specs.Prelude.{◌≡◌};
ghost use Rattle.containers.specs.Layouts.{HeadThere};
ghost use Rattle.members.specs.Members.{MembersAt, PartThere, IdThere, member_part, member_id};

use dictionary::NormalId;

// Where the ids, the starts and the area of a container stand, how many bytes an id and a start take, and how many members
// there are. An array has no ids.
#[derive(Clone, Copy)]
pub struct Members {
    pub ids: usize,
    pub id: usize,
    pub starts: usize,
    pub offset: usize,
    pub area: usize,
    pub count: usize,
}

// Where the members of a container stand whose count, ids and starts take so many bytes each; an array has ids of no bytes.
pub fn members_of(s: &[u8], counted: usize, id: usize, offset: usize) -> Members
    requires { HeadThere s.now counted id offset }
    ensures { MembersAt s.now counted id offset result }
{
    let count = numbers::read(s, 1, counted);
    let ids = 1 + counted;
    let starts = ids + count * id;
    let area = heads::head_size(count, counted, id, offset);
    Members {
        ids,
        id,
        starts,
        offset,
        area,
        count,
    }
}

// The id of a member.
pub fn id_at(s: &[u8], members: Members, k: usize) -> NormalId
    requires { IdThere s.now members k }
    ensures { result.0 ≡ member_id s.now members k }
{
    NormalId(numbers::read(s, members.ids + k * members.id, members.id))
}

// The bytes of a member.
pub fn part_at(s: &[u8], members: Members, k: usize) -> &[u8]
    requires { PartThere s.now members k }
    ensures { result.now ≡ member_part s.now members k }
{
    let place = members.starts + k * members.offset;
    let from = members.area + numbers::read(s, place, members.offset);
    let to = members.area + numbers::read(s, place + members.offset, members.offset);
    &s[from..to]
}
