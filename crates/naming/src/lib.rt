// Normal metadata written: the names of chosen ids of a lent dictionary, in the order in which the ids are listed.
#![tactic(auto)]

ghost use Rattle.std.specs.Prelude.{[], ◌≡◌, ◌+◌, ◌*◌, ◌≤◌, ◌<◌, max, length, get_or};
ghost use Rattle.numbers.specs.Little.{put_at, smallest_width};
ghost use Rattle.paper.specs.Words.{joined};
ghost use Rattle.paper.specs.Normal.{offsets_from, numbers_bytes, metadata_bytes};
ghost use Rattle.naming.specs.Chosen.{chosen_names, Chosen};

use dictionary::{Dictionary, NormalId};
use ranking::input_of;

// The name of a normal id: that of the input's id that was chosen for it.
fn name_of<'a>(dictionary: &Dictionary<'a>, chosen: &[u16], id: NormalId) -> &'a [u8]
    requires { (id.0 < length chosen.now) × (get_or chosen.now id.0 0 < length dictionary.now.names) }
    ensures { result.now ≡ get_or dictionary.now.names (get_or chosen.now id.0 0) [] }
{
    dictionary.name(input_of(chosen, id))
}

// How long the names are together.
fn total_of(dictionary: &Dictionary, chosen: &[u16]) -> usize
    requires { Chosen dictionary.now chosen.now }
    ensures { result ≡ length (joined (chosen_names dictionary.now.names chosen.now)) }
{
    let mut total = 0;
    for i in 0..chosen.len() {
        total += name_of(dictionary, chosen, NormalId(i)).len();
    }
    total
}

// The smallest offset size that holds the count and the total.
fn offset_size(count: usize, total: usize) -> usize
    ensures { (result ≡ smallest_width (max count total)) × (1 ≤ result) × (result ≤ 4) }
{
    numbers::width_of(count.max(total))
}

// How long the normal metadata of the names is.
pub fn size(dictionary: &Dictionary, chosen: &[u16]) -> usize
    requires { Chosen dictionary.now chosen.now }
    ensures { result ≡ length (metadata_bytes (chosen_names dictionary.now.names chosen.now)) }
{
    let count = chosen.len();
    let total = total_of(dictionary, chosen);
    let width = offset_size(count, total);
    1 + width + (count + 1) * width + total
}

// Writes the offsets from a place on: where each name starts, and where the last one ends.
fn write_offsets(
    dictionary: &Dictionary,
    chosen: &[u16],
    out: &mut [u8],
    place: usize,
    width: usize,
)
    requires { Chosen dictionary.now chosen.now × (1 ≤ width) × (width ≤ 4) × (place + (length chosen.now + 1) * width ≤ length out.old) }
    ensures { out.new ≡ put_at out.old place (numbers_bytes width (offsets_from 0 (chosen_names dictionary.now.names chosen.now))) }
{
    let mut at = place;
    let mut total = 0;
    for i in 0..chosen.len() {
        numbers::write(out, at, width, total);
        total += name_of(dictionary, chosen, NormalId(i)).len();
        at += width;
    }
    numbers::write(out, at, width, total);
}

// Writes the names from a place on, one behind the other.
fn write_names(dictionary: &Dictionary, chosen: &[u16], out: &mut [u8], place: usize)
    requires { Chosen dictionary.now chosen.now × (place + length (joined (chosen_names dictionary.now.names chosen.now)) ≤ length out.old) }
    ensures { out.new ≡ put_at out.old place (joined (chosen_names dictionary.now.names chosen.now)) }
{
    let mut at = place;
    for i in 0..chosen.len() {
        let name = name_of(dictionary, chosen, NormalId(i));
        numbers::put(out, at, name);
        at += name.len();
    }
}

// Writes the normal metadata of the names: the header with the flag set, the count, the offsets, the names.
pub fn write(dictionary: &Dictionary, chosen: &[u16], out: &mut [u8])
    requires { Chosen dictionary.now chosen.now × (length (metadata_bytes (chosen_names dictionary.now.names chosen.now)) ≤ length out.old) }
    ensures { out.new ≡ put_at out.old 0 (metadata_bytes (chosen_names dictionary.now.names chosen.now)) }
{
    let count = chosen.len();
    let total = total_of(dictionary, chosen);
    let width = offset_size(count, total);
    let offsets = 1 + width;
    let start = offsets + (count + 1) * width;
    out[0] = (17 + 64 * (width - 1)) as u8;
    numbers::write(out, 1, width, count);
    write_offsets(dictionary, chosen, out, offsets, width);
    write_names(dictionary, chosen, out, start);
}
