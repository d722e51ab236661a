// Tables of ids: lists of input ids, and the normal ids of input ids. Numbers stand in them; they are read and written as
// the one kind of id or the other.
ghost use Rattle.paper.specs.Bounds.{most_walked};
ghost use Rattle.std.specs.Prelude.{◌≡◌, ◌<◌, length, get_or, set};

use dictionary::{InputId, NormalId};

// The entry of a table at a place.
fn entry(table: &[u16], place: usize) -> usize
    requires { place < length table.now }
    ensures { (result ≡ get_or table.now place 0) × (result < most_walked) }
{
    table[place] as usize
}

// Makes a number the entry of a table at a place.
fn enter(table: &mut [u16], place: usize, n: usize)
    requires { (place < length table.old) × (n < most_walked) }
    ensures { table.new ≡ set table.old place n }
{
    table[place] = n as u16;
}

// The id at a place of a list.
pub fn id_at(ids: &[u16], place: usize) -> InputId
    requires { place < length ids.now }
    ensures { (result.0 ≡ get_or ids.now place 0) × (result.0 < most_walked) }
{
    InputId(entry(ids, place))
}

// Puts an id at a place of a list.
pub fn put_id(ids: &mut [u16], place: usize, id: InputId)
    requires { (place < length ids.old) × (id.0 < most_walked) }
    ensures { ids.new ≡ set ids.old place id.0 }
{
    enter(ids, place, id.0);
}

// The normal id of a used id.
pub fn normal_of(ranks: &[u16], id: InputId) -> NormalId
    requires { id.0 < length ranks.now }
    ensures { result.0 ≡ get_or ranks.now id.0 0 }
{
    NormalId(entry(ranks, id.0))
}

// Gives an id its normal id.
pub fn set_normal(ranks: &mut [u16], id: InputId, normal: NormalId)
    requires { (id.0 < length ranks.old) × (normal.0 < most_walked) }
    ensures { ranks.new ≡ set ranks.old id.0 normal.0 }
{
    enter(ranks, id.0, normal.0);
}

// The id that was chosen for a normal one.
pub fn input_of(chosen: &[u16], id: NormalId) -> InputId
    requires { id.0 < length chosen.now }
    ensures { result.0 ≡ get_or chosen.now id.0 0 }
{
    InputId(entry(chosen, id.0))
}
