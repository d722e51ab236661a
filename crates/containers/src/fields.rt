// The names of an object's fields.
ghost use Rattle.std.specs.Prelude.{◌≡◌, ◌&&◌, length};
ghost use Rattle.paper.specs.Words.{all_below};
ghost use Rattle.paper.specs.Metadata.{rising};
ghost use Rattle.paper.specs.Values.{names_at};

use dictionary::{Dictionary, input_id};
use runs::Run;

// Every id of a run is below the dictionary's count, and the names rise strictly.
pub fn names_rise(dictionary: &Dictionary, ids: &Run) -> bool
    ensures { result ≡ all_below (length dictionary.now.names) ids.now && rising (names_at dictionary.now.names ids.now) }
{
    if ids.len() == 0 {
        return true;
    }
    let names = dictionary.len();
    let mut last = input_id(ids, 0);
    if names <= last.0 {
        return false;
    }
    for i in 1..ids.len() {
        let id = input_id(ids, i);
        if names <= id.0 {
            return false;
        }
        if !dictionary.comes_before(last, id) {
            return false;
        }
        last = id;
    }
    true
}
