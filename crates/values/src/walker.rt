// A value judged whole: its own head, its children's lengths, gaps and overlaps, then the insides, level by level.
ghost use Rattle.std.specs.Prelude.{◌≡◌, true, ◌≤◌, length, drop};
ghost use Rattle.paper.specs.Bounds.{most_walked};
ghost use Rattle.paper.specs.Words.{at, is_there};
ghost use Rattle.paper.specs.FirstBytes.{reading_of};
ghost use Rattle.paper.specs.Values.{child_extent, children_at, primitive_meaning, meaning_of, whole};
ghost use Rattle.paper.specs.declared.Reading.TheVariants.{Fixed};
ghost use Rattle.values.specs.Insides.{plain_by, child_good, insides_good};

use containers::{Container, array_lies, child_extent, object_lies};
use dictionary::Dictionary;
use heads::Readings;
use paper::Reading;

// A primitive of fixed size: the scale byte of a decimal is at most 38.
fn primitive(code: usize, size: usize, s: &[u8]) -> bool
    requires { (whole s.now ≡ true) × (reading_of (at s.now 0) ≡ Fixed code size) }
    ensures { result ≡ is_there (primitive_meaning code (drop 1 s.now)) }
{
    match code {
        8..=10 => s[1] <= 38,
        _ => true,
    }
}

// A value of this first byte has nothing inside that could break a rule: a string, binary, or a primitive that is no
// decimal.
fn plain(first: u8) -> bool
    ensures { result ≡ plain_by (reading_of first) }
{
    match first % 4 {
        0 => match first / 4 {
            0..=7 => true,
            8..=10 => false,
            rest => rest <= 20,
        },
        1 => true,
        _ => false,
    }
}

// The child at a start, which has its length, is lawful inside.
#[cycle(child_insides_value)]
fn child(
    levels: usize,
    readings: &Readings,
    dictionary: &Dictionary,
    area: &[u8],
    start: usize,
) -> bool
    requires { (is_there (child_extent area.now start) ≡ true) × (length area.now ≤ most_walked) }
    ensures { result ≡ child_good (meaning_of levels dictionary.now.names) area.now start }
{
    if levels != 0 && plain(area[start]) {
        return true;
    }
    let Some(size) = child_extent(readings, area, start) else {
        return false;
    };
    let end = start + size;
    value(levels, readings, dictionary, &area[start..end])
}

// The children of a container, which have their lengths, are lawful inside.
#[cycle(child_insides_value)]
fn insides(
    levels: usize,
    readings: &Readings,
    dictionary: &Dictionary,
    container: &Container,
) -> bool
    requires { is_there (children_at container.now.area.now container.now.starts) ≡ true }
    ensures { result ≡ insides_good (meaning_of levels dictionary.now.names) container.now.area.now (children_at container.now.area.now container.now.starts) }
{
    for i in 0..container.starts.len() {
        let start = container.starts.get(i);
        if !child(levels, readings, dictionary, container.area, start) {
            return false;
        }
    }
    true
}

// Bytes that a value fills are lawful, within so many levels.
#[cycle(child_insides_value)]
pub fn value(levels: usize, readings: &Readings, dictionary: &Dictionary, s: &[u8]) -> bool
    requires { (whole s.now ≡ true) × (length s.now ≤ most_walked) }
    ensures { result ≡ is_there (meaning_of levels dictionary.now.names s.now) }
{
    if levels == 0 {
        return false;
    }
    match readings.of(s[0]) {
        Reading::Fixed { code, size } => primitive(code, size, s),
        Reading::Prefixed { code: _ } => true,
        Reading::Short { size: _ } => true,
        Reading::ObjectHead { count, id, offset } => {
            let object = containers::object(s, count, id, offset);
            if !object_lies(readings, dictionary, &object) {
                return false;
            }
            insides(levels - 1, readings, dictionary, &object)
        }
        Reading::ArrayHead { count, offset } => {
            let array = containers::array(s, count, offset);
            if !array_lies(readings, &array) {
                return false;
            }
            insides(levels - 1, readings, dictionary, &array)
        }
        Reading::Nothing => false,
    }
}

// Bytes are one lawful value, within so many levels: it ends where they do.
pub fn lawful(levels: usize, readings: &Readings, dictionary: &Dictionary, s: &[u8]) -> bool
    requires { length s.now ≤ most_walked }
    ensures { result ≡ is_there (meaning_of levels dictionary.now.names s.now) }
{
    let Some(size) = readings.extent_of(s) else {
        return false;
    };
    if size != s.len() {
        return false;
    }
    value(levels, readings, dictionary, s)
}
