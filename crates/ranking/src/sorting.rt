// Ids put in the order of their names, by merging halves.
ghost use Rattle.std.specs.Prelude.{true, [], ◌≡◌, ◌+◌, ◌≤◌, ◌<◌, length, get_or, take, drop};
ghost use Rattle.order.specs.Before.{before};
ghost use Rattle.paper.specs.Bounds.{most_names};
ghost use Rattle.paper.specs.Metadata.{rising};
ghost use Rattle.paper.specs.Values.{names_at};
ghost use Rattle.paper.specs.Words.{all_below};
ghost use Rattle.ranking.specs.Merging.{takes_first, merged};
ghost use Rattle.ranking.specs.Ranks.{Sorted};

use crate::tables::{id_at, put_id};
use dictionary::{Dictionary, InputId};
use order::is_before;

// The name of one id comes before that of another, by their bytes: ids are sorted only where no flag gives their order.
pub fn name_before(dictionary: &Dictionary, first: InputId, second: InputId) -> bool
    requires { (first.0 < length dictionary.now.names) × (second.0 < length dictionary.now.names) }
    ensures { result ≡ before (get_or dictionary.now.names first.0 []) (get_or dictionary.now.names second.0 []) }
{
    is_before(dictionary.name(first), dictionary.name(second))
}

// The names of ids rise. A sorted dictionary says so of rising ids by its flag.
pub fn in_order(dictionary: &Dictionary, ids: &[u16]) -> bool
    requires { (all_below (length dictionary.now.names) ids.now ≡ true) × (dictionary.now.sorted ≡ true → rising (names_at dictionary.now.names ids.now) ≡ true) }
    ensures { result ≡ rising (names_at dictionary.now.names ids.now) }
{
    if dictionary.is_sorted() || ids.is_empty() {
        return true;
    }
    let mut last = id_at(ids, 0);
    for i in 1..ids.len() {
        let id = id_at(ids, i);
        if !name_before(dictionary, last, id) {
            return false;
        }
        last = id;
    }
    true
}

// The next id of two runs comes from the first one: the second has ended, or its name does not come before.
fn from_first(dictionary: &Dictionary, first: &[u16], second: &[u16], i: usize, j: usize) -> bool
    requires { (all_below (length dictionary.now.names) first.now ≡ true) × (all_below (length dictionary.now.names) second.now ≡ true) }
    ensures { result ≡ takes_first dictionary.now.names (drop i first.now) (drop j second.now) }
{
    if first.len() <= i {
        return false;
    }
    if second.len() <= j {
        return true;
    }
    !name_before(dictionary, id_at(second, j), id_at(first, i))
}

// Merges two runs of ids by their names; of equal names the first run's come first.
fn merge(dictionary: &Dictionary, first: &[u16], second: &[u16], out: &mut [u16])
    requires { (all_below (length dictionary.now.names) first.now ≡ true) × (all_below (length dictionary.now.names) second.now ≡ true) × (length out.old ≡ length first.now + length second.now) }
    ensures { out.new ≡ merged dictionary.now.names first.now second.now }
{
    let mut i = 0;
    let mut j = 0;
    // Two runs side by side, each at its own pace: no range goes along both.
    while i + j < out.len() {
        if from_first(dictionary, first, second, i, j) {
            put_id(out, i + j, id_at(first, i));
            i += 1;
        } else {
            put_id(out, i + j, id_at(second, j));
            j += 1;
        }
    }
}

// Merges the two parts of a run that meet at a place.
fn merge_halves(dictionary: &Dictionary, ids: &[u16], half: usize, out: &mut [u16])
    requires { (all_below (length dictionary.now.names) ids.now ≡ true) × (length out.old ≡ length ids.now) × (half ≤ length ids.now) }
    ensures { out.new ≡ merged dictionary.now.names (take half ids.now) (drop half ids.now) }
{
    merge(dictionary, &ids[..half], &ids[half..], out);
}

// Merges the two parts of a run that meet at a place where the run stands, by way of spare room.
fn join(dictionary: &Dictionary, ids: &mut [u16], half: usize, spare: &mut [u16])
    requires { (all_below (length dictionary.now.names) ids.old ≡ true) × (length ids.old ≤ length spare.old) × (half ≤ length ids.old) }
    ensures { ids.new ≡ merged dictionary.now.names (take half ids.old) (drop half ids.old) }
{
    let count = ids.len();
    spare[..count].copy_from_slice(ids);
    merge_halves(dictionary, &spare[..count], half, ids);
}

// Sorts ids by their names: each half by itself, and the two merged.
fn sort_by(dictionary: &Dictionary, ids: &mut [u16], spare: &mut [u16])
    requires { (all_below (length dictionary.now.names) ids.old ≡ true) × (length ids.old ≤ length spare.old) }
    ensures { Sorted dictionary.now.names ids.old ids.new }
{
    let half = ids.len() / 2;
    if half == 0 {
        return;
    }
    sort_by(dictionary, &mut ids[..half], spare);
    sort_by(dictionary, &mut ids[half..], spare);
    join(dictionary, ids, half, spare);
}

// Sorts ids by their names, with spare room for N.
fn sort_with<const N: usize>(dictionary: &Dictionary, ids: &mut [u16])
    requires { (all_below (length dictionary.now.names) ids.old ≡ true) × (length ids.old ≤ N) × (N ≤ most_names) }
    ensures { Sorted dictionary.now.names ids.old ids.new }
{
    let mut spare = [0u16; N];
    sort_by(dictionary, ids, &mut spare);
}

// Sorts ids by their names. The spare room goes by their count, so that few ids do not pay for many.
pub fn sort(dictionary: &Dictionary, ids: &mut [u16])
    requires { (all_below (length dictionary.now.names) ids.old ≡ true) × (length ids.old ≤ most_names) }
    ensures { Sorted dictionary.now.names ids.old ids.new }
{
    match ids.len() {
        0..=64 => sort_with::<64>(dictionary, ids),
        65..=1024 => sort_with::<1024>(dictionary, ids),
        _ => sort_with::<16384>(dictionary, ids),
    }
}
