// The words of a lot's box: whether it was read, and the bits of a side.
ghost use Rattle.std.specs.Prelude.{◌≡◌, true};
ghost use Rattle.words.specs.Boundary.{box_word};
ghost use Rattle.words.specs.BoxParts.{side_of, side_word, side_has_bits};

use crate::answers::{refused_word, word};
use paper::{LotBox, Refusal};

// A side of a box.
#[derive(Clone, Copy)]
pub enum Side {
    East,
    North,
    South,
    West,
}

// The word of what the box reader answers.
pub fn box_word(answer: Result<Option<LotBox>, Refusal>) -> u64
    ensures { result ≡ box_word answer }
{
    match answer {
        Ok(Some(_)) => word(0, true, 0, 0),
        Ok(None) => word(0, false, 0, 0),
        Err(refusal) => refused_word(refusal),
    }
}

// A side of a box that was read.
fn side_of(side: Side, read: LotBox) -> f64
    ensures { result ≡ side_of side read }
{
    match side {
        Side::East => read.east,
        Side::North => read.north,
        Side::South => read.south,
        Side::West => read.west,
    }
}

// The bits of a side of the box that was read, 0 where there is none.
pub fn side_word(side: Side, answer: Result<Option<LotBox>, Refusal>) -> u64
    requires { side_has_bits side answer ≡ true }
    ensures { result ≡ side_word side answer }
{
    match answer {
        Ok(Some(read)) => side_of(side, read).to_bits(),
        Ok(None) | Err(_) => 0,
    }
}
