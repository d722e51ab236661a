// The head of a container, in front of its children.
ghost use Rattle.std.specs.Prelude.{◌≡◌, true, List, ◌∷◌, ℕ, ◌+◌, ◌-◌, ◌*◌, ◌≤◌, ◌<◌, length};
ghost use Rattle.numbers.specs.Little.{number_bytes, smallest_width};
ghost use Rattle.paper.specs.Bounds.{most_walked};
ghost use Rattle.paper.specs.FirstBytes.{count_size};
ghost use Rattle.paper.specs.Normal.{large_bit, largest};
ghost use Rattle.paper.specs.Values.{head_size_of};
ghost use Rattle.paper.specs.Words.{all_below};
ghost use Rattle.writing.specs.Ends.{EndsAt, Lies, Lying};
ghost use Rattle.writing.specs.Heads.{array_head, object_head};
ghost use Rattle.writing.specs.Rewritten.{ranks_at};

use crate::ids::{largest_of, write_ids};
use crate::offsets::write_offsets;
use heads::Readings;
use runs::Run;

// Writes a first byte and a count so that they end at a place: above 255 members the count takes four bytes, and the
// first byte says so by `large`. Answers where they start.
fn opened(first: usize, large: usize, count: usize, out: &mut [u8], end: usize) -> usize
    requires { (first + large < 256) × (1 + count_size (large_bit count) ≤ end) × (end ≤ length out.old) }
    ensures { EndsAt ((first + large * large_bit count) ∷ number_bytes (count_size (large_bit count)) count) out.old out.new end result }
{
    if count <= 255 {
        let start = end - 2;
        numbers::write(out, start + 1, 1, count);
        numbers::write(out, start, 1, first);
        return start;
    }
    let start = end - 5;
    numbers::write(out, start + 1, 4, count);
    numbers::write(out, start, 1, first + large);
    start
}

// Writes the head of an array whose elements stand from one place up to another, so many, so that it ends where they
// start. Answers where it starts.
pub fn array_head(
    readings: &Readings,
    count: usize,
    out: &mut [u8],
    start: usize,
    end: usize,
) -> usize
    requires { Lying out.old start end count × (count ≤ most_walked) × (end ≤ length out.old) × (head_size_of count (count_size (large_bit count)) 0 (smallest_width (end - start)) ≤ start) }
    ensures { (parts : List (List ℕ)) → Lies out.old start end parts → length parts ≡ count → EndsAt (array_head parts) out.old out.new start result }
{
    let width = numbers::width_of(end - start);
    let offsets = write_offsets(readings, count, width, out, start, end);
    opened(3 + 4 * (width - 1), 16, count, out, offsets)
}

// Writes the head of an object whose ids are given and whose members stand from one place up to another, one to an id, so
// that it ends where they start. Answers where it starts.
pub fn object_head(
    readings: &Readings,
    ranks: &[u16],
    ids: &Run,
    out: &mut [u8],
    start: usize,
    end: usize,
) -> usize
    requires room { Lying out.old start end (length ids.now) × (length ids.now ≤ most_walked) × (end ≤ length out.old) × (head_size_of (length ids.now) (count_size (large_bit (length ids.now))) (smallest_width (largest (ranks_at ranks.now ids.now))) (smallest_width (end - start)) ≤ start) }
    requires ranked { all_below (length ranks.now) ids.now ≡ true }
    ensures { (parts : List (List ℕ)) → Lies out.old start end parts → length parts ≡ length ids.now → EndsAt (object_head (ranks_at ranks.now ids.now) parts) out.old out.new start result }
{
    let count = ids.len();
    let offset_width = numbers::width_of(end - start);
    let offsets = write_offsets(readings, count, offset_width, out, start, end);
    let id_width = numbers::width_of(largest_of(ranks, ids).0);
    let named = write_ids(ranks, ids, id_width, out, offsets);
    opened(
        2 + 4 * (offset_width - 1) + 16 * (id_width - 1),
        64,
        count,
        out,
        named,
    )
}
