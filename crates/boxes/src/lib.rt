// The reader of a lot's box: four doubles named east, north, south and west.
//
// The functions with a `requires` are inner ones: whoever calls them has had the document judged.
#![tactic(auto)]

ghost use Rattle.std.specs.Prelude.{true, ◌≡◌, ℕ};
ghost use Rattle.paper.specs.Boxes.{double_of, side, box_in, box_of};
ghost use Rattle.paper.specs.Limits.{most_levels};
ghost use Rattle.paper.specs.Meaning.{Doc, Fields};
ghost use Rattle.paper.specs.Metadata.{Dictionary as Names};
ghost use Rattle.paper.specs.Values.{meaning_of, whole};
ghost use Rattle.boxes.specs.Sides.{side_by, box_of_sides, Lawful, Means, LawfulObject};

use containers::Container;
use dictionary::Dictionary;
use paper::{LotBox, Reading};

// The double that a value's bytes mean, if it is in an order: nine bytes, the first 28.
fn double_in(s: &[u8]) -> Option<f64>
    requires { whole s.now ≡ true }
    ensures { (levels : ℕ) (names : Names) (d : Doc) → meaning_of levels names s.now ≡ Some d → result ≡ side_by (double_of d) }
{
    if s[0] != 28 {
        return None;
    }
    cells::double(numbers::read8(s, 1))
}

// The side of a name in an object.
fn side_in(dictionary: &Dictionary, object: &Container, name: &[u8]) -> Option<f64>
    requires { LawfulObject dictionary.now.names object.now.ids object.now.starts object.now.area.now }
    ensures { (fs : Fields) → Means dictionary.now.names object.now.ids object.now.starts object.now.area.now fs → result ≡ side_by (side name.now fs) }
{
    let field = paths::field_at(dictionary, object, name)?;
    let start = field.start;
    let end = start + field.size;
    double_in(&object.area[start..end])
}

// Four sides are a box if west is at most east and south at most north.
fn ordered(east: f64, north: f64, south: f64, west: f64) -> Option<LotBox>
    ensures { result ≡ box_of_sides east north south west }
{
    if west <= east && south <= north {
        return Some(LotBox {
            east,
            north,
            south,
            west,
        });
    }
    None
}

// The box in an object: all four sides are doubles, and they are in order. Other fields are ignored.
fn box_in(dictionary: &Dictionary, object: &Container) -> Option<LotBox>
    requires { LawfulObject dictionary.now.names object.now.ids object.now.starts object.now.area.now }
    ensures { (fs : Fields) → Means dictionary.now.names object.now.ids object.now.starts object.now.area.now fs → result ≡ box_in fs }
{
    let east = side_in(dictionary, object, b"east")?;
    let north = side_in(dictionary, object, b"north")?;
    let south = side_in(dictionary, object, b"south")?;
    let west = side_in(dictionary, object, b"west")?;
    ordered(east, north, south, west)
}

// The box of a lawful document's outermost object.
pub fn lot_box(dictionary: &Dictionary, value: &[u8]) -> Option<LotBox>
    requires { Lawful dictionary.now.names value.now }
    ensures { (d : Doc) → meaning_of most_levels dictionary.now.names value.now ≡ Some d → result ≡ box_of d }
{
    let Reading::ObjectHead { count, id, offset } = heads::reading(value[0]) else {
        return None;
    };
    let object = containers::object(value, count, id, offset);
    box_in(dictionary, &object)
}
