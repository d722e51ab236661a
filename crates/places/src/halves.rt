// The two frames of a row.
ghost use Rattle.std.specs.Prelude.{◌≡◌, ◌<◌, length};
ghost use Rattle.frames.specs.Frames.{frame_end};
ghost use Rattle.places.specs.Halves.{middle_of};

use frames::frame_at;

// Behind the first frame, one more that ends where the row does.
fn second_half(row: &[u8], middle: usize) -> Option<usize>
    requires { (frame_end row.now 0 ≡ Some middle) × (middle < length row.now) }
    ensures { result ≡ middle_of row.now }
{
    let last = frame_at(row, middle)?;
    if last < row.len() {
        return None;
    }
    Some(middle)
}

// Two frames and nothing more: where the first ends.
pub fn row_halves(row: &[u8]) -> Option<usize>
    ensures { result ≡ middle_of row.now }
{
    if row.len() == 0 {
        return None;
    }
    let middle = frame_at(row, 0)?;
    if row.len() <= middle {
        return None;
    }
    second_half(row, middle)
}
