// A container's offsets: the children stand already, so they are walked by their lengths.
ghost use Rattle.std.specs.Prelude.{◌≡◌, List, ℕ, ◌+◌, ◌*◌, ◌≤◌, length};
ghost use Rattle.paper.specs.Bounds.{most_walked};
ghost use Rattle.paper.specs.Normal.{numbers_bytes, offsets_from};
ghost use Rattle.writing.specs.Ends.{EndsAt, Lies, Lying};

use heads::Readings;

// Writes the offsets of the children that stand from one place up to another, so many, each in `width` bytes, so that
// they end where the children start. Answers where they start.
pub fn write_offsets(
    readings: &Readings,
    count: usize,
    width: usize,
    out: &mut [u8],
    start: usize,
    end: usize,
) -> usize
    requires { Lying out.old start end count × (1 ≤ width) × (width ≤ 4) × ((count + 1) * width ≤ start) × (count ≤ most_walked) × (end ≤ length out.old) }
    ensures { (parts : List (List ℕ)) → Lies out.old start end parts → length parts ≡ count → EndsAt (numbers_bytes width (offsets_from 0 parts)) out.old out.new start result }
{
    let from = start - (count + 1) * width;
    let mut place = from;
    let mut child = start;
    for _ in 0..count {
        numbers::write(out, place, width, child - start);
        let Some(size) = containers::child_extent(readings, out, child) else {
            return from;
        };
        child += size;
        place += width;
    }
    numbers::write(out, place, width, end - start);
    from
}
