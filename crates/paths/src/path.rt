// A lent path, judged: framed pieces one after another, each a name or a two-byte index.
ghost use Rattle.std.specs.Prelude.{◌≡◌};
ghost use Rattle.paper.specs.Words.{is_there};
ghost use Rattle.paper.specs.Paths.{step_of, path_of};

use frames::frame_at;

// A piece is a step: tag 60 a name, tag 61 an index of two bytes.
fn step_good(tag: u8, body: &[u8]) -> bool
    ensures { result ≡ is_there (step_of (record { tag = tag; body = body.now })) }
{
    match tag {
        0x60 => true,
        0x61 => body.len() == 2,
        _ => false,
    }
}

// A path keeps its rules.
pub fn path_good(path: &[u8]) -> bool
    ensures { result ≡ is_there (path_of path.now) }
{
    let mut at = 0;
    // Frames are of many lengths, so their places are no range.
    while at < path.len() {
        let Some(next) = frame_at(path, at) else {
            return false;
        };
        if !step_good(path[at], &path[at + 3..next]) {
            return false;
        }
        at = next;
    }
    true
}
