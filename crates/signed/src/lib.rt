// Signed numbers in bytes, by their two's complement: reading and writing on slices at a place.
//
// The functions with a `requires` are inner ones: whoever calls them has shown that the bytes are there.
#![tactic(auto)]

ghost use Rattle.std.specs.Prelude.{◌≡◌, ◌+◌, ◌*◌, ◌≤◌, ◌<◌, ◌^◌, length};
ghost use Rattle.numbers.specs.Little.{number, number_at, put_at};
ghost use Rattle.signed.specs.Signed.{signed_of, signed_bytes, SomeWidth};

// Half of 256 to the width, for the widths from one to eight bytes.
const HALVES: [u64; 8] = [
    128,
    32768,
    8388608,
    2147483648,
    549755813888,
    140737488355328,
    36028797018963968,
    9223372036854775808,
];

// Half of 256 to the width.
fn half_of(width: usize) -> u64
    requires { (1 ≤ width) × (width ≤ 8) }
    ensures { (2 * result ≡ 256 ^ width) × (1 ≤ result) × (result ≤ 2 ^ 63) }
{
    HALVES[width - 1]
}

// The signed number that an unsigned one of `width` bytes stands for.
fn signed(n: u64, width: usize) -> i64
    requires { (1 ≤ width) × (width ≤ 8) × (n < 256 ^ width) }
    ensures { result ≡ signed_of width n }
{
    let half = half_of(width);
    if n < half {
        return n as i64;
    }
    let below = half - 1 - (n - half);
    -1 - (below as i64)
}

// The number that the eight bytes of a signed one hold.
pub fn unsigned(z: i64) -> u64
    ensures { result ≡ number (signed_bytes 8 z) }
{
    z.cast_unsigned()
}

// The signed number of `width` bytes, one to four or eight, at a place.
pub fn read_signed(s: &[u8], place: usize, width: usize) -> i64
    requires { (place + width ≤ length s.now) × SomeWidth width }
    ensures { result ≡ signed_of width (number_at s.now place width) }
{
    if width == 8 {
        return signed(numbers::read8(s, place), 8);
    }
    signed(numbers::read(s, place, width) as u64, width)
}

// Writes the `width` lowest bytes, one to four or eight, of a signed number at a place.
pub fn write_signed(out: &mut [u8], place: usize, width: usize, z: i64)
    requires { (place + width ≤ length out.old) × SomeWidth width }
    ensures { out.new ≡ put_at out.old place (signed_bytes width z) }
{
    if width == 8 {
        numbers::write8(out, place, unsigned(z));
    } else {
        numbers::write(out, place, width, unsigned(z) as usize);
    }
}
