// Parts of a value, written in normal form, put in front of a place of a room, unless they would reach below a floor.
//
// The functions with a `requires` are inner ones: whoever calls them has had the parts judged.
#![tactic(auto)]

ghost use Rattle.std.specs.Prelude.{◌≡◌, length};
ghost use Rattle.writing.specs.Rewritten.{rewritten};
ghost use Rattle.putting.specs.Put.{Room, PutAs, Leftover};

mod container;
mod scalars;

pub use container::{array, object};
use heads::Readings;
pub use scalars::{cell, null};

// Puts a leftover's normal form. The floor is at least as high as that is long, so it can be written before its length is
// known.
pub fn leftover(
    levels: usize,
    readings: &Readings,
    ranks: &[u16],
    s: &[u8],
    out: &mut [u8],
    floor: usize,
    end: usize,
) -> Option<usize>
    requires { Room out.old floor end × Leftover levels s.now ranks.now floor }
    ensures { PutAs (rewritten levels ranks.now s.now) out.old out.new floor end result }
{
    let start = writing::written(levels, readings, ranks, s, out, end);
    if start < floor {
        return None;
    }
    Some(start)
}
