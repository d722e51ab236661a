// Where a path leads in a lawful value.
ghost use Rattle.std.specs.Prelude.{◌≡◌, true, List, ◌+◌, ◌-◌, ◌≤◌, length};
ghost use Rattle.paper.specs.Bounds.{most_walked};
ghost use Rattle.paper.specs.Words.{at, is_there, and_then};
ghost use Rattle.paper.specs.Limits.{most_levels};
ghost use Rattle.paper.specs.FirstBytes.{reading_of};
ghost use Rattle.paper.specs.Metadata.{Dictionary as Names};
ghost use Rattle.paper.specs.Values.{meaning_of};
ghost use Rattle.paper.specs.Paths.{step_of, path_of, behind_head, into_field, into_element, step_into, find_from};
ghost use Rattle.paper.specs.Standing.{Step};
ghost use Rattle.paths.specs.Places.{LawfulIn};

use crate::places::{element_at, field_at};
use dictionary::Dictionary;
use frames::frame_at;
use paper::{Child, Reading};

// A child of a container's area as a part of the container, which ends where its area does.
fn part_of(s: &[u8], area: &[u8], child: Child) -> Child
    requires { (length area.now ≤ length s.now) × (child.start + child.size ≤ length area.now) }
    ensures { result ≡ behind_head (length s.now - length area.now) child }
{
    Child {
        start: s.len() - area.len() + child.start,
        size: child.size,
    }
}

// A name leads into an object that has it.
fn into_field(dictionary: &Dictionary, s: &[u8], name: &[u8]) -> Option<Child>
    requires { LawfulIn dictionary.now.names s.now }
    ensures { result ≡ into_field dictionary.now.names name.now (reading_of (at s.now 0)) s.now }
{
    let Reading::ObjectHead { count, id, offset } = heads::reading(s[0]) else {
        return None;
    };
    let object = containers::object(s, count, id, offset);
    let field = field_at(dictionary, &object, name)?;
    Some(part_of(s, object.area, field))
}

// An index leads into an array that is long enough.
fn into_element(s: &[u8], index: usize) -> Option<Child>
    requires { (names : Names) × LawfulIn names s.now }
    ensures { result ≡ into_element index (reading_of (at s.now 0)) s.now }
{
    let Reading::ArrayHead { count, offset } = heads::reading(s[0]) else {
        return None;
    };
    let array = containers::array(s, count, offset);
    let element = element_at(&array, index)?;
    Some(part_of(s, array.area, element))
}

// One step, from a value to a part of it.
fn step_into(dictionary: &Dictionary, s: &[u8], tag: u8, body: &[u8]) -> Option<Child>
    requires { LawfulIn dictionary.now.names s.now × (is_there (step_of (record { tag = tag; body = body.now })) ≡ true) }
    ensures { result ≡ (and_then (step_of (record { tag = tag; body = body.now })) λ step. step_into dictionary.now.names step s.now) }
{
    if tag == 0x60 {
        return into_field(dictionary, s, body);
    }
    into_element(s, numbers::read(body, 0, 2))
}

// Where a path leads from a value, step by step.
pub fn find(dictionary: &Dictionary, value: &[u8], path: &[u8]) -> Option<Child>
    requires { (is_there (meaning_of most_levels dictionary.now.names value.now) ≡ true) × (length value.now ≤ most_walked) × (is_there (path_of path.now) ≡ true) }
    ensures { (steps : List Step) → path_of path.now ≡ Some steps → result ≡ find_from dictionary.now.names steps 0 value.now }
{
    let mut start = 0;
    let mut end = value.len();
    let mut at = 0;
    // Frames are of many lengths, so their places are no range.
    while at < path.len() {
        let next = frame_at(path, at)?;
        let child = step_into(
            dictionary,
            &value[start..end],
            path[at],
            &path[at + 3..next],
        )?;
        start += child.start;
        end = start + child.size;
        at = next;
    }
    Some(Child {
        start,
        size: end - start,
    })
}
