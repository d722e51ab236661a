// Framed pieces by position.
ghost use Rattle.std.specs.Prelude.{◌≡◌, ◌≤◌, length};
ghost use Rattle.schemas.specs.Frames.{frame_end, tagged_within};

// Where the frame at a position ends: behind a node all of it, behind a field the next one or the object's end.
pub fn frame_end(schema: &[u8], place: usize) -> usize
    requires { frame_end schema.now place ≤ length schema.now }
    ensures { result ≡ frame_end schema.now place }
{
    place + 3 + numbers::read(schema, place + 1, 2)
}

// A whole frame of a tag stands at a position, and ends at another at the latest.
pub fn tagged_within(s: &[u8], place: usize, end: usize, tag: u8) -> bool
    requires { (place ≤ end) × (end ≤ length s.now) }
    ensures { result ≡ tagged_within s.now place end tag }
{
    if end - place < 3 {
        return false;
    }
    let body = place + 3;
    if end - body < numbers::read(s, place + 1, 2) {
        return false;
    }
    s[place] == tag
}
