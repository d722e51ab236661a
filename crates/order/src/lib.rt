// The order of byte strings: by unsigned bytes, a prefix being smaller.
#![tactic(auto)]

ghost use Rattle.std.specs.Prelude.{◌≡◌};
ghost use Rattle.order.specs.Before.{before, order_of};
ghost use Rattle.order.specs.Agreed.{Agreed};

use numbers::read8;
use std::cmp::Ordering;

// A place up to which two byte strings agree, looked for eight bytes at a time.
fn agreed(a: &[u8], b: &[u8]) -> usize
    ensures { Agreed a.now b.now result }
{
    let turns = a.len().min(b.len()) / 8;
    for turn in 0..turns {
        let i = 8 * turn;
        if read8(a, i) != read8(b, i) {
            return i;
        }
    }
    8 * turns
}

// How two byte strings stand to each other. (The library's `cmp` of slices goes byte by byte where strings are short.)
pub fn compare(a: &[u8], b: &[u8]) -> Ordering
    ensures { result ≡ order_of a.now b.now }
{
    for i in agreed(a, b)..a.len().min(b.len()) {
        let x = a[i];
        let y = b[i];
        if x < y {
            return Ordering::Less;
        }
        if y < x {
            return Ordering::Greater;
        }
    }
    a.len().cmp(&b.len())
}

// The first byte string comes before the second.
pub fn is_before(a: &[u8], b: &[u8]) -> bool
    ensures { result ≡ before a.now b.now }
{
    compare(a, b).is_lt()
}
