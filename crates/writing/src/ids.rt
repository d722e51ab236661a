// An object's ids, each changed to its normal id: input ids are read, normal ones written.
ghost use Rattle.std.specs.Prelude.{◌≡◌, true, ◌+◌, ◌*◌, ◌≤◌, length};
ghost use Rattle.numbers.specs.Little.{number_bytes, put_at};
ghost use Rattle.paper.specs.Normal.{largest, numbers_bytes};
ghost use Rattle.paper.specs.Words.{all_below};
ghost use Rattle.writing.specs.Ends.{EndsAt};
ghost use Rattle.writing.specs.Rewritten.{ranks_at};

use dictionary::{NormalId, input_id};
use ranking::normal_of;
use runs::Run;

// The largest of the normal ids of some ids; 0 of none.
pub fn largest_of(ranks: &[u16], ids: &Run) -> NormalId
    requires { all_below (length ranks.now) ids.now ≡ true }
    ensures { result.0 ≡ largest (ranks_at ranks.now ids.now) }
{
    let mut most = NormalId(0);
    for i in 0..ids.len() {
        most = most.max(normal_of(ranks, input_id(ids, i)));
    }
    most
}

// Writes an id's `width` bytes at a place.
fn write_id(out: &mut [u8], place: usize, width: usize, id: NormalId)
    requires { (place + width ≤ length out.old) × (1 ≤ width) × (width ≤ 4) }
    ensures { out.new ≡ put_at out.old place (number_bytes width id.0) }
{
    numbers::write(out, place, width, id.0);
}

// Writes the normal ids of some ids, each in `width` bytes, so that they end at a place. Answers where they start.
pub fn write_ids(ranks: &[u16], ids: &Run, width: usize, out: &mut [u8], end: usize) -> usize
    requires { (all_below (length ranks.now) ids.now ≡ true) × (1 ≤ width) × (width ≤ 4) × (length ids.now * width ≤ end) × (end ≤ length out.old) }
    ensures { EndsAt (numbers_bytes width (ranks_at ranks.now ids.now)) out.old out.new end result }
{
    let start = end - ids.len() * width;
    let mut to = start;
    for i in 0..ids.len() {
        let input = input_id(ids, i);
        let normal = normal_of(ranks, input);
        write_id(out, to, width, normal);
        to += width;
    }
    start
}
