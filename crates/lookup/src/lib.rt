// A name's id in a dictionary, by halving the names in their order.
#![tactic(auto)]

ghost use Rattle.std.specs.Prelude.{false, ◌≡◌, ◌≤◌, ◌<◌, length, get_or};
ghost use Rattle.paper.specs.Bounds.{most_names};
ghost use Rattle.lookup.specs.Looking.{Tells, ids_below, ids_in_order, Ordered};

use dictionary::{Dictionary, InputId};
use order::compare;
use ranking::{id_at, put_id, sort};
use std::cmp::Ordering;

// Lists the ids from 0 on.
pub fn list_ids(ids: &mut [u16])
    requires { length ids.old ≤ most_names }
    ensures { ids.new ≡ ids_below (length ids.old) }
{
    for i in 0..ids.len() {
        put_id(ids, i, InputId(i));
    }
}

// Puts the ids of all names in the order of the names, once for many look-ups. Where the flag is set nothing is needed.
pub fn sort_names(dictionary: &Dictionary, order: &mut [u16])
    requires { (length dictionary.now.names ≤ most_names) × (dictionary.now.sorted ≡ false → length dictionary.now.names ≤ length order.old) }
    ensures { Ordered dictionary.now order.new }
{
    if dictionary.is_sorted() {
        return;
    }
    let ids = &mut order[..dictionary.len()];
    list_ids(ids);
    sort(dictionary, ids);
}

// The id at a place in the order of the names.
fn ordered_id(dictionary: &Dictionary, order: &[u16], place: usize) -> InputId
    requires { (place < length dictionary.now.names) × (dictionary.now.sorted ≡ false → length dictionary.now.names ≤ length order.now) }
    ensures { result.0 ≡ get_or (ids_in_order dictionary.now order.now) place 0 }
{
    if dictionary.is_sorted() {
        InputId(place)
    } else {
        id_at(order, place)
    }
}

// An id of a name, if the dictionary has it.
pub fn look_up(dictionary: &Dictionary, order: &[u16], name: &[u8]) -> Option<InputId>
    requires { Ordered dictionary.now order.now }
    ensures { Tells dictionary.now.names name.now result }
{
    let mut low = 0;
    let mut high = dictionary.len();
    // The library halves a slice; under the sorted flag there is none to halve, the ids are their places.
    while low < high {
        let middle = low + (high - low) / 2;
        let id = ordered_id(dictionary, order, middle);
        match compare(dictionary.name(id), name) {
            Ordering::Less => {
                low = middle + 1;
            }
            Ordering::Equal => {
                return Some(id);
            }
            Ordering::Greater => {
                high = middle;
            }
        }
    }
    None
}
