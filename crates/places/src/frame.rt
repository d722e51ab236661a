// The frame of an inner place.
ghost use Rattle.std.specs.Prelude.{◌≡◌, ◌<◌, length};
ghost use Rattle.places.specs.Frames.{place_end};

use frames::frame_at;

// The frame of a place that starts here: tag `50`, and it fits.
pub fn place_frame(s: &[u8], at: usize) -> Option<usize>
    requires { at < length s.now }
    ensures { result ≡ place_end s.now at }
{
    if s[at] != 0x50 {
        return None;
    }
    frame_at(s, at)
}
