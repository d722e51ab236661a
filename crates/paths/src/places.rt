// The children of a container, by name and by number.
ghost use Rattle.std.specs.Prelude.{◌≡◌, true, [], ◌<◌, length, get_or};
ghost use Rattle.paper.specs.Words.{same, all_below, is_there, and_then};
ghost use Rattle.paper.specs.Values.{names_at, children_at};
ghost use Rattle.paper.specs.Paths.{child_named, child_number};
ghost use Rattle.paths.specs.Places.{position_in};

use containers::{Container, child_extent};
use dictionary::{Dictionary, InputId, input_id};
use heads::Readings;
use paper::Child;
use runs::Run;

// The name of an id is the given one.
fn is_name(dictionary: &Dictionary, id: InputId, name: &[u8]) -> bool
    requires { id.0 < length dictionary.now.names }
    ensures { result ≡ same (get_or dictionary.now.names id.0 []) name.now }
{
    order::compare(dictionary.name(id), name).is_eq()
}

// How many ids of a run come before the one that has a name.
fn position_of(dictionary: &Dictionary, ids: &Run, name: &[u8]) -> usize
    requires { all_below (length dictionary.now.names) ids.now ≡ true }
    ensures { result ≡ position_in name.now (names_at dictionary.now.names ids.now) }
{
    for i in 0..ids.len() {
        if is_name(dictionary, input_id(ids, i), name) {
            return i;
        }
    }
    ids.len()
}

// The child of a number, of a container whose children have their lengths.
pub fn element_at(container: &Container, index: usize) -> Option<Child>
    requires { is_there (children_at container.now.area.now container.now.starts) ≡ true }
    ensures { result ≡ and_then (children_at container.now.area.now container.now.starts) (child_number index) }
{
    if container.starts.len() <= index {
        return None;
    }
    let start = container.starts.get(index);
    let readings = Readings::new();
    let size = child_extent(&readings, container.area, start)?;
    Some(Child { start, size })
}

// The field of a name in an object, which has an id for each child.
pub fn field_at(dictionary: &Dictionary, object: &Container, name: &[u8]) -> Option<Child>
    requires { (is_there (children_at object.now.area.now object.now.starts) ≡ true) × (all_below (length dictionary.now.names) object.now.ids ≡ true) × (length object.now.ids ≡ length object.now.starts) }
    ensures { result ≡ and_then (children_at object.now.area.now object.now.starts) (child_named name.now (names_at dictionary.now.names object.now.ids)) }
{
    element_at(object, position_of(dictionary, &object.ids, name))
}
