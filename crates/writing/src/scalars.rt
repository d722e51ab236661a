// Scalars: all but long strings of few bytes are written as they stand.
ghost use Rattle.std.specs.Prelude.{◌≤◌, length};
ghost use Rattle.writing.specs.Ends.{EndsAt};
ghost use Rattle.writing.specs.Rewritten.{shortened};

// Copies bytes so that they end at a place, and answers where they start.
pub fn copied(s: &[u8], out: &mut [u8], end: usize) -> usize
    requires { (length s.now ≤ end) × (end ≤ length out.old) }
    ensures { EndsAt s.now out.old out.new end result }
{
    let start = end - s.len();
    numbers::put(out, start, s);
    start
}

// A string or binary with its length in front, so that it ends at a place; a string of at most 63 bytes gets one first
// byte instead. Answers where it starts.
pub fn prefixed(code: usize, s: &[u8], out: &mut [u8], end: usize) -> usize
    requires { (5 ≤ length s.now) × (length (shortened code s.now) ≤ end) × (end ≤ length out.old) }
    ensures { EndsAt (shortened code s.now) out.old out.new end result }
{
    if code != 16 || 68 < s.len() {
        return copied(s, out, end);
    }
    let text = 5;
    let start = copied(&s[text..], out, end);
    let first = start - 1;
    numbers::write(out, first, 1, 4 * (s.len() - text) + 1);
    first
}
