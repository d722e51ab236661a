// The input, and the bytes that its words stand for.
ghost use Rattle.std.specs.Prelude.{◌<◌, ◌≤◌, length, IfOk};

use std::io;
use std::io::Read;

// A word stands for so many bytes at most; what lies behind is left out.
pub const MOST_WORD: usize = 256;

// Reads until the buffer is full or the input ends: how many bytes came.
pub fn read_full(from: &mut impl Read, out: &mut [u8]) -> io::Result<usize>
    ensures { IfOk result (λ n. n ≤ length out.new) }
{
    let mut done = 0;
    while done < out.len() {
        let n = from.read(&mut out[done..])?;
        if n == 0 {
            break;
        }
        done += n;
    }
    Ok(done)
}

// The bytes that a word stands for.
#[derive(Drop)]
pub struct Word {
    bytes: [u8; MOST_WORD],
    size: usize,
    ghost held: { size ≤ 256 },
}

// What a hex digit, 0 to 9 or a to f, stands for.
fn digit(c: u8) -> u8
    ensures { result < 16 }
{
    if c < b'a' {
        return c % 16;
    }
    (c % 16 + 9) % 16
}

impl Word {
    // Reads hex digits, two to a byte.
    pub fn read(digits: &[u8]) -> Word {
        let pairs = digits.as_chunks::<2>().0;
        let mut bytes = [0; MOST_WORD];
        for (byte, [high, low]) in bytes.iter_mut().zip(pairs) {
            *byte = 16 * digit(*high) + digit(*low);
        }
        let size = pairs.len().min(MOST_WORD);
        Word { bytes, size }
    }

    pub fn bytes(&self) -> &[u8] {
        &self.bytes[..self.size]
    }
}

// A byte as the length of a part of a buffer; 0 if the byte is not there.
pub fn room(bytes: &[u8], place: usize) -> usize
    ensures { result ≤ 256 }
{
    bytes.get(place).map_or(0, |byte| usize::from(*byte))
}

// So many bytes at the front, as far as there are any.
pub fn front(s: &[u8], size: usize) -> &[u8] {
    &s[..size.min(s.len())]
}

// The bytes from a place on.
pub fn behind(s: &[u8], from: usize) -> &[u8] {
    &s[from.min(s.len())..]
}
