// Which ids are chosen, and which normal id each used one has.
ghost use Rattle.std.specs.Prelude.{true, ◌≡◌, ◌≤◌, List, ℕ, length};
ghost use Rattle.paper.specs.Bounds.{most_names};
ghost use Rattle.paper.specs.Metadata.{rising};
ghost use Rattle.paper.specs.Values.{names_at};
ghost use Rattle.paper.specs.Words.{all_below};
ghost use Rattle.ranking.specs.Ranks.{used_ids, never_falls, Listed, RanksOf, Folded, Ranked};

use crate::sorting::{in_order, name_before, sort};
use crate::tables::{id_at, put_id, set_normal};
use dictionary::{Dictionary, InputId, NormalId};
use marking::is_used;

// Lists the used ids below a count, rising, and answers how many they are.
fn collect(used: &[u8], count: usize, chosen: &mut [u16]) -> usize
    requires { (count ≤ length used.now) × (count ≤ length chosen.old) × (count ≤ most_names) }
    ensures { Listed (used_ids count used.now) chosen.new result }
{
    let mut n = 0;
    for i in 0..count {
        let id = InputId(i);
        if is_used(used, id) {
            put_id(chosen, n, id);
            n += 1;
        }
    }
    n
}

// Gives each of some ids, whose names rise, its place.
fn place(ids: &[u16], ranks: &mut [u16])
    requires { (all_below (length ranks.old) ids.now ≡ true) × (length ids.now ≤ most_names) }
    ensures { (names : List (List ℕ)) → rising (names_at names ids.now) ≡ true → RanksOf names ids.now ids.now ranks.new }
{
    for i in 0..ids.len() {
        set_normal(ranks, id_at(ids, i), NormalId(i));
    }
}

// Of ids whose names never fall keeps the first of each name, and gives each id its name's place among those kept. Answers
// how many are kept.
fn fold(dictionary: &Dictionary, ids: &mut [u16], ranks: &mut [u16]) -> usize
    requires { (all_below (length dictionary.now.names) ids.old ≡ true) × (never_falls (names_at dictionary.now.names ids.old) ≡ true) × (length dictionary.now.names ≤ length ranks.old) × (length ids.old ≤ most_names) }
    ensures { Folded dictionary.now.names ids.old ids.new ranks.new result }
{
    if ids.is_empty() {
        return 0;
    }
    let mut last = id_at(ids, 0);
    set_normal(ranks, last, NormalId(0));
    let mut kept = 1;
    for i in 1..ids.len() {
        let id = id_at(ids, i);
        if name_before(dictionary, last, id) {
            put_id(ids, kept, id);
            kept += 1;
        }
        let place = kept - 1;
        set_normal(ranks, id, NormalId(place));
        last = id;
    }
    kept
}

// Of ids in any order keeps one for each name, in the order of the names, and gives each id its name's place among those
// kept. Answers how many are kept.
fn sort_and_fold(dictionary: &Dictionary, ids: &mut [u16], ranks: &mut [u16]) -> usize
    requires { (all_below (length dictionary.now.names) ids.old ≡ true) × (length dictionary.now.names ≤ length ranks.old) × (length ids.old ≤ most_names) }
    ensures { Folded dictionary.now.names ids.old ids.new ranks.new result }
{
    sort(dictionary, ids);
    fold(dictionary, ids, ranks)
}

// Gives each used name its normal id: `chosen` starts with one id for each name used, in the order of the names, and `ranks`
// has at each used id its name's place there. Answers how many are chosen.
pub fn rank(dictionary: &Dictionary, used: &[u8], ranks: &mut [u16], chosen: &mut [u16]) -> usize
    requires { (length dictionary.now.names ≤ length used.now) × (length dictionary.now.names ≤ length ranks.old) × (length dictionary.now.names ≤ length chosen.old) × (length dictionary.now.names ≤ most_names) }
    ensures { Ranked dictionary.now.names used.now ranks.new chosen.new result }
{
    let listed = collect(used, dictionary.len(), chosen);
    if in_order(dictionary, &chosen[..listed]) {
        place(&chosen[..listed], ranks);
        return listed;
    }
    sort_and_fold(dictionary, &mut chosen[..listed], ranks)
}
