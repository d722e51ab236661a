// A list's places.
ghost use Rattle.std.specs.Prelude.{◌≤◌, length};
ghost use Rattle.paper.specs.Limits.{most_row};
ghost use Rattle.rebuilt.specs.Rebuilt.{pieces_in};
ghost use Rattle.noting.specs.Adding.{SomeElements};
ghost use Rattle.noting.specs.Notes.{piece_places, Spotted};

use places::place_frame;

// Notes where each of a list's places starts. Answers how many there are.
pub fn note_elements(body: &[u8], places: &mut [u16]) -> usize
    requires { SomeElements body.now × (length body.now ≤ most_row) × (length body.now ≤ length places.old) }
    ensures { Spotted (piece_places 0 (pieces_in body.now)) places.new result }
{
    let mut n = 0;
    let mut at = 0;
    // Frames are of many lengths, so their places are no range.
    while at < body.len() {
        let Some(end) = place_frame(body, at) else {
            return n;
        };
        places[n] = at as u16;
        n += 1;
        at = end;
    }
    n
}
