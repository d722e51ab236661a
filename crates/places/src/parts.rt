// The body of a place by its frames.
ghost use Rattle.std.specs.Prelude.{◌≡◌, ◌<◌, length};
ghost use Rattle.frames.specs.Frames.{frame_end};
ghost use Rattle.paper.specs.Words.{at};
ghost use Rattle.places.specs.Parts.{part_by, parts_of};

use frames::frame_at;

// What a place holds: at most one `41` and then at most one `42`. Where there are both, the leftover's frame ends at the place
// told.
#[derive(Clone, Copy)]
pub enum Parts {
    Empty,
    Leftover,
    Typed,
    Both(usize),
    Unframed,
}

// One frame alone: a leftover, or something typed.
fn only(tag: u8) -> Parts
    ensures { result ≡ part_by tag }
{
    match tag {
        0x41 => Parts::Leftover,
        0x42 => Parts::Typed,
        _ => Parts::Unframed,
    }
}

// Behind a leftover's frame, one more, of something typed.
fn both(body: &[u8], end: usize) -> Parts
    requires { (frame_end body.now 0 ≡ Some end) × (end < length body.now) × (at body.now 0 ≡ 0x41) }
    ensures { result ≡ parts_of body.now }
{
    if body[end] != 0x42 {
        return Parts::Unframed;
    }
    let Some(last) = frame_at(body, end) else {
        return Parts::Unframed;
    };
    if last < body.len() {
        return Parts::Unframed;
    }
    Parts::Both(end)
}

pub fn split(body: &[u8]) -> Parts
    ensures { result ≡ parts_of body.now }
{
    if body.len() == 0 {
        return Parts::Empty;
    }
    let Some(end) = frame_at(body, 0) else {
        return Parts::Unframed;
    };
    if body.len() <= end {
        return only(body[0]);
    }
    if body[0] != 0x41 {
        return Parts::Unframed;
    }
    both(body, end)
}
