// The reading of each first byte, by a table that is laid out once for many look-ups.
ghost use Rattle.std.specs.Prelude.{◌≡◌};
ghost use Rattle.heads.specs.Packing.{Packed};
ghost use Rattle.paper.specs.FirstBytes.{reading_of};
ghost use Rattle.paper.specs.Values.{extent};

use crate::container_extent;
use crate::tables::READINGS;
use paper::Reading;

// A constant is laid out anew wherever it is looked at: whoever looks up many readings lays them out once, and lends them.
#[derive(Drop)]
pub struct Readings {
    table: [u8; 256],
    ghost packed: { Packed table },
}

// The one fixed reading of a first byte.
pub fn reading(first: u8) -> Reading
    ensures { result ≡ reading_of first }
{
    Readings::new().of(first)
}

impl Readings {
    pub fn new() -> Readings {
        Readings { table: READINGS }
    }

    // The one fixed reading of a first byte.
    pub fn of(&self, first: u8) -> Reading
        ensures { result ≡ reading_of first }
    {
        let says = usize::from(self.table[first as usize]);
        let rest = first as usize / 4;
        let kind = says % 8;
        let size = says / 8;
        match kind {
            0 => Reading::Fixed { code: rest, size },
            1 => Reading::Prefixed { code: rest },
            2 => Reading::Short { size: rest },
            3 => Reading::ObjectHead {
                count: 1 + 3 * (size / 16),
                id: size / 4 % 4 + 1,
                offset: size % 4 + 1,
            },
            4 => Reading::ArrayHead {
                count: 1 + 3 * (size / 4),
                offset: size % 4 + 1,
            },
            _ => Reading::Nothing,
        }
    }

    // How long the value at the front of some bytes says it is: by its header, count and last offset alone, or a string's or
    // binary's length.
    pub fn extent_of(&self, s: &[u8]) -> Option<usize>
        ensures { result ≡ extent s.now }
    {
        if s.len() == 0 {
            return None;
        }
        match self.of(s[0]) {
            Reading::Fixed { code: _, size } => Some(1 + size),
            Reading::Prefixed { code: _ } => {
                if s.len() < 5 {
                    None
                } else {
                    Some(5 + numbers::read(s, 1, 4))
                }
            }
            Reading::Short { size } => Some(1 + size),
            Reading::ObjectHead { count, id, offset } => container_extent(s, count, id, offset),
            Reading::ArrayHead { count, offset } => container_extent(s, count, 0, offset),
            Reading::Nothing => None,
        }
    }
}
