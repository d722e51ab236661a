// Numbers in bytes: little-endian reading and writing on slices at a place, the smallest width of a number, and copying
// to a place.
//
// The functions with a `requires` are inner ones: whoever calls them has shown that the bytes are there.
#![tactic(auto)]

ghost use Rattle.std.specs.Prelude.{◌≡◌, ◌+◌, ◌*◌, ◌≤◌, ◌<◌, ◌^◌, length};
ghost use Rattle.numbers.specs.Little.{number_at, number_bytes, put_at, smallest_width};

// A byte as a number.
pub fn wide(byte: u8) -> usize
    ensures { (result ≡ byte) × (result < 256) }
{
    byte as usize
}

// The number of `width` bytes, one to four, at a place.
pub fn read(s: &[u8], place: usize, width: usize) -> usize
    requires { (place + width ≤ length s.now) × (1 ≤ width) × (width ≤ 4) }
    ensures { (result ≡ number_at s.now place width) × (result < 256 ^ width) }
{
    let first = usize::from(s[place]);
    if width == 1 {
        return first;
    }
    let second = usize::from(s[place + 1]);
    if width == 2 {
        return first + 256 * second;
    }
    let third = usize::from(s[place + 2]);
    if width == 3 {
        return first + 256 * (second + 256 * third);
    }
    let fourth = usize::from(s[place + 3]);
    first + 256 * (second + 256 * (third + 256 * fourth))
}

// The number of eight bytes at a place.
pub fn read8(s: &[u8], place: usize) -> u64
    requires { place + 8 ≤ length s.now }
    ensures { result ≡ number_at s.now place 8 }
{
    let low = read(s, place, 4) as u64;
    let high = read(s, place + 4, 4) as u64;
    low + 4294967296 * high
}

// Writes a number's `width` lowest bytes, one to four, at a place.
pub fn write(out: &mut [u8], place: usize, width: usize, n: usize)
    requires { (place + width ≤ length out.old) × (1 ≤ width) × (width ≤ 4) }
    ensures { out.new ≡ put_at out.old place (number_bytes width n) }
{
    out[place] = (n % 256) as u8;
    if width == 1 {
        return;
    }
    let second = n / 256;
    out[place + 1] = (second % 256) as u8;
    if width == 2 {
        return;
    }
    let third = second / 256;
    out[place + 2] = (third % 256) as u8;
    if width == 3 {
        return;
    }
    let fourth = third / 256;
    out[place + 3] = (fourth % 256) as u8;
}

// Writes a number's eight bytes at a place.
pub fn write8(out: &mut [u8], place: usize, n: u64)
    requires { place + 8 ≤ length out.old }
    ensures { out.new ≡ put_at out.old place (number_bytes 8 n) }
{
    write(out, place, 4, n as usize);
    write(out, place + 4, 4, (n / 4294967296) as usize);
}

// The smallest width, one to four, that holds a number below 256 to the fourth.
pub fn width_of(n: usize) -> usize
    ensures { (result ≡ smallest_width n) × (1 ≤ result) × (result ≤ 4) }
{
    if n < 256 {
        return 1;
    }
    if n < 65536 {
        return 2;
    }
    if n < 16777216 {
        return 3;
    }
    4
}

// Copies bytes to a place.
pub fn put(out: &mut [u8], place: usize, source: &[u8])
    requires { place + length source.now ≤ length out.old }
    ensures { out.new ≡ put_at out.old place source.now }
{
    let end = place + source.len();
    out[place..end].copy_from_slice(source);
}
