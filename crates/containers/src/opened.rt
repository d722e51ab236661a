// A container opened: where its numbers and its children lie.
ghost use Rattle.std.specs.Prelude.{◌≡◌, ◌≤◌, [], length};
ghost use Rattle.paper.specs.Bounds.{most_walked};
ghost use Rattle.paper.specs.Values.{area_of, starts_of, ids_of};
ghost use Rattle.containers.specs.Layouts.{HeadThere};

use runs::Run;

// Its ids, of which an array has none, its children's starts, and the area that they lie in.
#[derive(Drop)]
pub struct Container<'a> {
    pub ids: Run<'a>,
    pub starts: Run<'a>,
    pub area: &'a [u8],
    pub ghost few: { length starts ≤ most_walked },
    pub ghost small: { length area.now ≤ most_walked },
}

// An object opened whose count, ids and offsets take so many bytes each.
pub fn object(s: &[u8], counted: usize, id: usize, offset: usize) -> Container<'_>
    requires { HeadThere s.now counted id offset × (1 ≤ id) }
    ensures ids { result.ids ≡ ids_of counted id s.now }
    ensures starts { result.starts ≡ starts_of counted id offset s.now }
    ensures area { result.area.now ≡ area_of counted id offset s.now }
    ensures as_many { length result.ids ≡ length result.starts }
{
    let count = numbers::read(s, 1, counted);
    let ids = 1 + counted;
    let starts = ids + count * id;
    let area = heads::head_size(count, counted, id, offset);
    Container {
        ids: Run::new(&s[ids..], id, count),
        starts: Run::new(&s[starts..], offset, count),
        area: &s[area..],
    }
}

// An array opened whose count and offsets take so many bytes each.
pub fn array(s: &[u8], counted: usize, offset: usize) -> Container<'_>
    requires { HeadThere s.now counted 0 offset }
    ensures ids { result.ids ≡ [] }
    ensures starts { result.starts ≡ starts_of counted 0 offset s.now }
    ensures area { result.area.now ≡ area_of counted 0 offset s.now }
{
    let count = numbers::read(s, 1, counted);
    let starts = 1 + counted;
    let area = heads::head_size(count, counted, 0, offset);
    Container {
        ids: Run::new(&s[..0], 1, 0),
        starts: Run::new(&s[starts..], offset, count),
        area: &s[area..],
    }
}
