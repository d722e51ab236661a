// A place of a row put in front of a place of a room: heads of frames in front of what stands already, a place that is empty or
// has one part, a value under a column.
//
// The functions with a `requires` are inner ones: whoever calls them has written the value in its normal form.
#![tactic(auto)]

ghost use Rattle.std.specs.Prelude.{[], ◌++◌, ◌≡◌, ◌+◌, ◌-◌, ◌≤◌, ◌<◌, length};
ghost use Rattle.paper.specs.FirstBytes.{reading_of};
ghost use Rattle.paper.specs.Framing.{frame};
ghost use Rattle.paper.specs.Limits.{most_row};
ghost use Rattle.paper.specs.Words.{at};
ghost use Rattle.putting.specs.Put.{Room, PutAs};
ghost use Rattle.enclosing.specs.Frames.{frame_head, place_of, fixed_place, column_place, Headed};

use heads::Readings;
use paper::Reading;

// Puts the head of a frame whose body stands from one place up to another.
pub fn head(tag: usize, out: &mut [u8], start: usize, end: usize) -> Option<usize>
    requires { Room out.old 0 start × (start ≤ end) × (end ≤ length out.old) × (length out.old ≤ most_row) × (tag < 256) }
    ensures { PutAs (frame_head tag (end - start)) out.old out.new 0 start result }
{
    if start < 3 {
        return None;
    }
    let first = start - 3;
    numbers::write(out, first + 1, 2, end - start);
    numbers::write(out, first, 1, tag);
    Some(first)
}

// Puts the two heads of a place whose one part, of a tag, has a body that stands from one place up to another.
pub fn enclosed(tag: usize, out: &mut [u8], start: usize, end: usize) -> Option<usize>
    requires { Room out.old 0 start × (start ≤ end) × (end ≤ length out.old) × (length out.old ≤ most_row) × (tag < 256) }
    ensures { PutAs (frame_head 0x50 (3 + (end - start)) ++ frame_head tag (end - start)) out.old out.new 0 start result }
{
    let inner = head(tag, out, start, end)?;
    head(0x50, out, inner, end)
}

// Puts an empty place.
pub fn empty(out: &mut [u8], end: usize) -> Option<usize>
    requires { Room out.old 0 end × (length out.old ≤ most_row) }
    ensures { PutAs (frame 0x50 []) out.old out.new 0 end result }
{
    head(0x50, out, end, end)
}

// Puts a place of one part.
pub fn place(tag: usize, body: &[u8], out: &mut [u8], end: usize) -> Option<usize>
    requires { Room out.old 0 end × (length out.old ≤ most_row) × (tag < 256) }
    ensures { PutAs (place_of tag body.now) out.old out.new 0 end result }
{
    if end < body.len() {
        return None;
    }
    let start = writing::copied(body, out, end);
    enclosed(tag, out, start, end)
}

// Puts a value of a fixed size under a column: a boolean as `01` or `00`, else its payload, if its type is the column's.
fn fixed(code: u8, kind: usize, s: &[u8], out: &mut [u8], end: usize) -> Option<usize>
    requires { Room out.old 0 end × (length out.old ≤ most_row) × (1 ≤ length s.now) }
    ensures { PutAs (fixed_place code kind s.now) out.old out.new 0 end result }
{
    if code == 1 {
        if kind == 1 {
            return place(0x42, &[0x01u8], out, end);
        }
        if kind == 2 {
            return place(0x42, &[0x00u8], out, end);
        }
        return place(0x41, s, out, end);
    }
    if numbers::wide(code) == kind {
        return place(0x42, &s[1..], out, end);
    }
    place(0x41, s, out, end)
}

// Puts a value under a column: a cell if its type is the column's, else a leftover.
pub fn column(readings: &Readings, code: u8, s: &[u8], out: &mut [u8], end: usize) -> Option<usize>
    requires { Room out.old 0 end × (length out.old ≤ most_row) × Headed s.now }
    ensures { PutAs (column_place code (reading_of (at s.now 0)) s.now) out.old out.new 0 end result }
{
    match readings.of(s[0]) {
        Reading::Fixed { code: kind, .. } => fixed(code, kind, s, out, end),
        Reading::Prefixed { code: kind } if numbers::wide(code) == kind => {
            place(0x42, &s[5..], out, end)
        }
        Reading::Short { .. } if code == 16 => place(0x42, &s[1..], out, end),
        _ => place(0x41, s, out, end),
    }
}
