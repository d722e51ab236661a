// The head of a container, in front of parts that stand already.
ghost use Rattle.std.specs.Prelude.{true, List, ◌≡◌, ℕ, ◌+◌, ◌*◌, ◌≤◌, length};
ghost use Rattle.paper.specs.Bounds.{most_walked};
ghost use Rattle.paper.specs.FirstBytes.{count_size};
ghost use Rattle.paper.specs.Normal.{large_bit};
ghost use Rattle.paper.specs.Words.{all_below};
ghost use Rattle.writing.specs.Ends.{Lies, Lying};
ghost use Rattle.writing.specs.Heads.{array_head, object_head};
ghost use Rattle.writing.specs.Rewritten.{ranks_at};
ghost use Rattle.putting.specs.Put.{Room, PutAs};

use heads::Readings;
use runs::Run;

// How many bytes a count takes: above 255 members four.
fn count_size(count: usize) -> usize
    ensures { (result ≡ count_size (large_bit count)) × (result ≤ 4) }
{
    if count <= 255 { 1 } else { 4 }
}

// Puts the head of an array whose elements stand from one place up to another, so many.
pub fn array(
    readings: &Readings,
    count: usize,
    out: &mut [u8],
    floor: usize,
    start: usize,
    end: usize,
) -> Option<usize>
    requires { Room out.old floor start × Lying out.old start end count × (count ≤ most_walked) × (end ≤ length out.old) }
    ensures { (parts : List (List ℕ)) → Lies out.old start end parts → length parts ≡ count → PutAs (array_head parts) out.old out.new floor start result }
{
    let width = numbers::width_of(end - start);
    let size = heads::head_size(count, count_size(count), 0, width);
    if start - floor < size {
        return None;
    }
    Some(writing::array_head(readings, count, out, start, end))
}

// Puts the head of an object whose ids are given and whose members stand from one place up to another, one to an id.
pub fn object(
    readings: &Readings,
    ranks: &[u16],
    ids: &Run,
    out: &mut [u8],
    floor: usize,
    start: usize,
    end: usize,
) -> Option<usize>
    requires room { Room out.old floor start × Lying out.old start end (length ids.now) × (length ids.now ≤ most_walked) × (end ≤ length out.old) }
    requires ranked { all_below (length ranks.now) ids.now ≡ true }
    ensures { (parts : List (List ℕ)) → Lies out.old start end parts → length parts ≡ length ids.now → PutAs (object_head (ranks_at ranks.now ids.now) parts) out.old out.new floor start result }
{
    let width = numbers::width_of(end - start);
    let count = ids.len();
    let id_width = numbers::width_of(writing::largest_of(ranks, ids).0);
    let size = heads::head_size(count, count_size(count), id_width, width);
    if start - floor < size {
        return None;
    }
    Some(writing::object_head(readings, ranks, ids, out, start, end))
}
