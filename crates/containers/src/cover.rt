// Every byte of an area is in exactly one child: a bit map of the starts, and one walk by the children's lengths.
ghost use Rattle.std.specs.Prelude.{◌≡◌, true, List, ℕ, ◌*◌, ◌/◌, ◌≤◌, ◌<◌, eqb, length};
ghost use Rattle.paper.specs.Bounds.{most_walked};
ghost use Rattle.paper.specs.Words.{all_below};
ghost use Rattle.paper.specs.Values.{children_at, every_byte_once};
ghost use Rattle.paper.specs.declared.Child.{Child};
ghost use Rattle.containers.specs.Children.{lengths_of, once_in};
ghost use Rattle.containers.specs.Marks.{bit_of, set_bit, mark_all, Marked};
ghost use Rattle.containers.specs.declared.children.Lying.TheVariants.{Scattered};

use crate::children::child_extent;
use heads::Readings;
use runs::Run;

// Sets the bit of a place.
fn set_bit(marks: &mut [u8], place: usize)
    requires { place / 8 < length marks.old }
    ensures { marks.new ≡ set_bit marks.old place }
{
    let at = place / 8;
    marks[at] = marks[at] | 1 << (place % 8);
}

// The bit of a place is set.
fn bit_set(marks: &[u8], place: usize) -> bool
    requires { place / 8 < length marks.now }
    ensures { result ≡ eqb (bit_of marks.now place) 1 }
{
    (marks[place / 8] >> (place % 8)) % 2 == 1
}

// Marks the starts.
fn mark(starts: &Run, marks: &mut [u8])
    requires { all_below (8 * length marks.old) starts.now ≡ true }
    ensures { marks.new ≡ mark_all marks.old starts.now }
{
    for i in 0..starts.len() {
        set_bit(marks, starts.get(i));
    }
}

// Walks the area from its start by the children's lengths; each step has to land on a mark.
fn walk(readings: &Readings, area: &[u8], marks: &[u8]) -> bool
    requires { (length area.now ≤ most_walked) × (length area.now ≤ 8 * length marks.now) }
    ensures { (starts : List ℕ) (children : List Child) → Marked area.now starts children marks.now → result ≡ every_byte_once (length area.now) children }
{
    let mut place = 0;
    // Children are of many sizes, so their places are no range.
    while place < area.len() {
        if !bit_set(marks, place) {
            return false;
        }
        let Some(size) = child_extent(readings, area, place) else {
            return false;
        };
        place += size;
    }
    true
}

// Every byte of the area is in exactly one of the children with these starts, which all have lengths that come to the
// area's. The map has `BYTES` bytes, and a bit for each byte of the area.
fn covered_by<const BYTES: usize>(readings: &Readings, area: &[u8], starts: &Run) -> bool
    requires bounds { (length area.now ≤ most_walked) × (length area.now ≤ 8 * BYTES) × (BYTES ≤ most_walked) }
    requires scattered { lengths_of (length area.now) (children_at area.now starts.now) ≡ Some (Scattered (length area.now)) }
    ensures { result ≡ once_in (length area.now) (children_at area.now starts.now) }
{
    let mut marks = [0u8; BYTES];
    mark(starts, &mut marks);
    walk(readings, area, &marks)
}

// Every byte of the area is in exactly one of the children with these starts, which all have lengths that come to `sum`.
// The map goes by the area's length, so that a small object does not pay for a large one.
pub fn covered(readings: &Readings, area: &[u8], starts: &Run, sum: usize) -> bool
    requires small { length area.now ≤ most_walked }
    requires scattered { lengths_of (length area.now) (children_at area.now starts.now) ≡ Some (Scattered sum) }
    ensures { result ≡ once_in (length area.now) (children_at area.now starts.now) }
{
    if sum != area.len() {
        return false;
    }
    match area.len() {
        0..=1024 => covered_by::<128>(readings, area, starts),
        1025..=16384 => covered_by::<2048>(readings, area, starts),
        _ => covered_by::<8192>(readings, area, starts),
    }
}
