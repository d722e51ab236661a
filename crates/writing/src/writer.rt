// A value written whole: a container's children last to first, then its head in front of them, level by level.
ghost use Rattle.std.specs.Prelude.{◌≡◌, length};
ghost use Rattle.marking.specs.Ids.{ids_in};
ghost use Rattle.paper.specs.Meaning.{Doc};
ghost use Rattle.paper.specs.Metadata.{Dictionary};
ghost use Rattle.paper.specs.Values.{meaning_of};
ghost use Rattle.paper.specs.Words.{joined};
ghost use Rattle.writing.specs.Ends.{EndsAt};
ghost use Rattle.writing.specs.Rewritten.{parts_in, rewritten};
ghost use Rattle.writing.specs.Written.{Ready, Right, Writable, Wrote, Holding};

use crate::container::{array_head, object_head};
use crate::scalars::{copied, prefixed};
use containers::Container;
use heads::Readings;
use paper::Reading;

// Writes a container's children, last to first, so that they end at a place. Answers where they start.
#[cycle(children_written)]
fn children(
    levels: usize,
    readings: &Readings,
    ranks: &[u16],
    container: &Container,
    out: &mut [u8],
    end: usize,
) -> usize
    requires { Holding levels container.now.area.now container.now.starts ranks.now (length out.old) end }
    ensures { EndsAt (joined (parts_in (rewritten levels ranks.now) container.now.area.now container.now.starts)) out.old out.new end result }
{
    let area = container.area;
    let mut start = end;
    for i in (0..container.starts.len()).rev() {
        let child = container.starts.get(i);
        let Some(size) = containers::child_extent(readings, area, child) else {
            return start;
        };
        let to = child + size;
        start = written(levels, readings, ranks, &area[child..to], out, start);
    }
    start
}

// Writes what a lawful value is rewritten to, so that it ends at a place. Answers where it starts.
#[cycle(children_written)]
pub fn written(
    levels: usize,
    readings: &Readings,
    ranks: &[u16],
    s: &[u8],
    out: &mut [u8],
    end: usize,
) -> usize
    requires { Writable levels s.now ranks.now (length out.old) end }
    ensures { EndsAt (rewritten levels ranks.now s.now) out.old out.new end result }
{
    match readings.of(s[0]) {
        Reading::Fixed { code: _, size: _ } => copied(s, out, end),
        Reading::Prefixed { code } => prefixed(code, s, out, end),
        Reading::Short { size: _ } => copied(s, out, end),
        Reading::ObjectHead { count, id, offset } => {
            let object = containers::object(s, count, id, offset);
            let start = children(levels - 1, readings, ranks, &object, out, end);
            object_head(readings, ranks, &object.ids, out, start, end)
        }
        Reading::ArrayHead { count, offset } => {
            let array = containers::array(s, count, offset);
            let start = children(levels - 1, readings, ranks, &array, out, end);
            array_head(readings, array.starts.len(), out, start, end)
        }
        Reading::Nothing => end,
    }
}

// Writes the normal form of a lawful value, so that it ends at a place, and answers where it starts. `ranks` has the normal
// id of each id of the value's dictionary.
pub fn value(
    levels: usize,
    readings: &Readings,
    ranks: &[u16],
    s: &[u8],
    out: &mut [u8],
    end: usize,
) -> usize
    requires { Ready levels s.now ranks.now (length out.old) end }
    ensures { (names normal : Dictionary) (d : Doc) → meaning_of levels names s.now ≡ Some d → Right names normal ranks.now (ids_in levels s.now) → Wrote normal d out.old out.new end result }
{
    written(levels, readings, ranks, s, out, end)
}
