// Which names of a dictionary a value uses: the ids inside a lawful value, marked in a table in one walk.
#![tactic(auto)]

ghost use Rattle.std.specs.Prelude.{◌≡◌, true, ◌<◌, eqb, length, get_or, set};
ghost use Rattle.paper.specs.Words.{all_below};
ghost use Rattle.paper.specs.Values.{children_at};
ghost use Rattle.marking.specs.Ids.{ids_inside, ids_in, mark_ids};
ghost use Rattle.marking.specs.Marking.{Markable, MarkableChild, MarkableInside, ids_at};

use containers::Container;
use dictionary::{InputId, input_id};
use heads::Readings;
use paper::Reading;
use runs::Run;

// An id is marked.
pub fn is_used(used: &[u8], id: InputId) -> bool
    requires { id.0 < length used.now }
    ensures { result ≡ eqb (get_or used.now id.0 0) 1 }
{
    used[id.0] == 1
}

// Marks an id.
pub fn mark_id(used: &mut [u8], id: InputId)
    requires { id.0 < length used.old }
    ensures { used.new ≡ set used.old id.0 1 }
{
    used[id.0] = 1;
}

// Marks the ids of a run.
fn mark_run(ids: &Run, used: &mut [u8])
    requires { all_below (length used.old) ids.now ≡ true }
    ensures { used.new ≡ mark_ids used.old ids.now }
{
    for i in 0..ids.len() {
        mark_id(used, input_id(ids, i));
    }
}

// Marks the ids inside the child at a start. By its first byte alone, a child that is no container has none.
#[cycle(child_children_mark)]
fn child(levels: usize, readings: &Readings, area: &[u8], start: usize, used: &mut [u8])
    requires { MarkableChild levels area.now start (length used.old) }
    ensures { used.new ≡ mark_ids used.old (ids_at (ids_in levels) area.now start) }
{
    if area[start] % 4 < 2 {
        return;
    }
    let Some(size) = containers::child_extent(readings, area, start) else {
        return;
    };
    let end = start + size;
    mark(levels, readings, &area[start..end], used);
}

// Marks the ids inside the children of a container.
#[cycle(child_children_mark)]
fn children(levels: usize, readings: &Readings, container: &Container, used: &mut [u8])
    requires { MarkableInside levels container.now.area.now container.now.starts (length used.old) }
    ensures { used.new ≡ mark_ids used.old (ids_inside (ids_in levels) container.now.area.now (children_at container.now.area.now container.now.starts)) }
{
    for i in 0..container.starts.len() {
        let start = container.starts.get(i);
        child(levels, readings, container.area, start, used);
    }
}

// Marks the ids inside a lawful value, 1 each; all other entries of the table keep their values.
#[cycle(child_children_mark)]
pub fn mark(levels: usize, readings: &Readings, s: &[u8], used: &mut [u8])
    requires { Markable levels s.now (length used.old) }
    ensures { used.new ≡ mark_ids used.old (ids_in levels s.now) }
{
    match readings.of(s[0]) {
        Reading::ObjectHead { count, id, offset } => {
            let object = containers::object(s, count, id, offset);
            mark_run(&object.ids, used);
            children(levels - 1, readings, &object, used);
        }
        Reading::ArrayHead { count, offset } => {
            let array = containers::array(s, count, offset);
            children(levels - 1, readings, &array, used);
        }
        _ => {}
    }
}
