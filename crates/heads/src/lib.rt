// First bytes: the reading of each, the payload sizes of the primitive types, and how long the value that starts
// somewhere says it is.
#![tactic(auto)]

ghost use Rattle.std.specs.Prelude.{◌≡◌, ◌+◌, ◌^◌, ◌≤◌, ◌<◌, get_or};
ghost use Rattle.paper.specs.FirstBytes.{payload_sizes};
ghost use Rattle.paper.specs.Values.{head_size_of, container_extent};

use paper::Reading;

mod readings;
mod tables;

pub use readings::{Readings, reading};
pub use tables::READINGS;

// The payload size of a primitive type, or the mark.
pub fn payload_size(code: usize) -> usize
    requires { code < 21 }
    ensures { result ≡ get_or payload_sizes code 0 }
{
    tables::SIZES[code]
}

// The head of an array or an object, all before the value area, from its count and the bytes that the count, an id and an
// offset take. An array has ids of no bytes.
pub fn head_size(count: usize, width: usize, id: usize, offset: usize) -> usize
    requires { (count < 2 ^ 32) × (width ≤ 4) × (id ≤ 4) × (offset ≤ 4) }
    ensures { (result ≡ head_size_of count width id offset) × (result ≤ 2 ^ 36) }
{
    1 + width + count * id + (count + 1) * offset
}

// A container's head, if it is there, and its last offset.
fn container_extent(s: &[u8], width: usize, id: usize, offset: usize) -> Option<usize>
    requires { (1 ≤ width) × (width ≤ 4) × (id ≤ 4) × (1 ≤ offset) × (offset ≤ 4) }
    ensures { result ≡ container_extent width id offset s.now }
{
    if s.len() < 1 + width {
        return None;
    }
    let count = numbers::read(s, 1, width);
    let head = head_size(count, width, id, offset);
    if s.len() < head {
        return None;
    }
    let last = numbers::read(s, head - offset, offset);
    Some(head + last)
}
