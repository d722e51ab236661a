// The shape of a container: where its children lie, judged without looking inside them.
ghost use Rattle.std.specs.Prelude.{◌≡◌, ◌&&◌, length};
ghost use Rattle.paper.specs.Words.{all_below};
ghost use Rattle.paper.specs.Metadata.{rising};
ghost use Rattle.paper.specs.Values.{names_at, children_at};
ghost use Rattle.containers.specs.Children.{once_in, tiled_in};

use crate::children::{Lying, lengths_of};
use crate::cover::covered;
use crate::fields::names_rise;
use crate::opened::Container;
use dictionary::Dictionary;
use heads::Readings;

// An array's children are there, and each ends where the next starts.
pub fn array_lies(readings: &Readings, array: &Container) -> bool
    ensures { result ≡ tiled_in (length array.now.area.now) (children_at array.now.area.now array.now.starts) }
{
    match lengths_of(readings, array.area, &array.starts) {
        Some(Lying::EndToEnd) => true,
        Some(Lying::Scattered(_)) => false,
        None => false,
    }
}

// An object's children are there, and every byte of the area is in exactly one.
fn members_lie(readings: &Readings, object: &Container) -> bool
    ensures { result ≡ once_in (length object.now.area.now) (children_at object.now.area.now object.now.starts) }
{
    match lengths_of(readings, object.area, &object.starts) {
        Some(Lying::EndToEnd) => true,
        Some(Lying::Scattered(sum)) => covered(readings, object.area, &object.starts, sum),
        None => false,
    }
}

// An object's ids are below the dictionary's count, its names rise strictly, and its children lie as they must.
pub fn object_lies(readings: &Readings, dictionary: &Dictionary, object: &Container) -> bool
    ensures { result ≡ (all_below (length dictionary.now.names) object.now.ids && rising (names_at dictionary.now.names object.now.ids)) && once_in (length object.now.area.now) (children_at object.now.area.now object.now.starts) }
{
    names_rise(dictionary, &object.ids) && members_lie(readings, object)
}
