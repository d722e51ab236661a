// The two kinds of id, of one type each, so that no id is kept by mistake after the dictionary was rebuilt.
ghost use Rattle.std.specs.Prelude.{◌≡◌, ◌+◌, ◌^◌, ◌≤◌, ◌<◌, length, get_or};
ghost use Rattle.numbers.specs.Little.{number_at};

use runs::Run;

// An input name id: one under lent metadata.
#[derive(Clone, Copy, PartialEq, Eq, PartialOrd, Ord)]
pub struct InputId(pub usize);

// A normal name id: one under the normal dictionary, rebuilt from the names used.
#[derive(Clone, Copy, PartialEq, Eq, PartialOrd, Ord)]
pub struct NormalId(pub usize);

// The id that stands at a place of lent bytes, in so many of them.
pub fn input_id_at(s: &[u8], place: usize, width: usize) -> InputId
    requires { (place + width ≤ length s.now) × (1 ≤ width) × (width ≤ 4) }
    ensures { (result.0 ≡ number_at s.now place width) × (result.0 < 256 ^ width) }
{
    InputId(numbers::read(s, place, width))
}

// The id at a place of a run.
pub fn input_id(ids: &Run, place: usize) -> InputId
    requires { place < length ids.now }
    ensures { (result.0 ≡ get_or ids.now place 0) × (result.0 < 2 ^ 32) }
{
    InputId(ids.get(place))
}
