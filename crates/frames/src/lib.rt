// The house framing: a one-byte tag, a two-byte length, and that many bytes.
#![tactic(auto)]

ghost use Rattle.std.specs.Prelude.{◌≡◌, ◌<◌, length};
ghost use Rattle.frames.specs.Frames.{frame_end};

// Where the frame that starts at a place ends, if it fits. Its body starts three bytes on.
pub fn frame_at(s: &[u8], at: usize) -> Option<usize>
    requires { at < length s.now }
    ensures { result ≡ frame_end s.now at }
{
    if s.len() - at < 3 {
        return None;
    }
    let body = at + 3;
    let size = numbers::read(s, at + 1, 2);
    if s.len() - body < size {
        return None;
    }
    Some(body + size)
}
