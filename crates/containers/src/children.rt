// How the children of a container lie in its value area.
ghost use Rattle.std.specs.Prelude.{◌≡◌, ◌&&◌, ◌≤◌, eqb, length};
ghost use Rattle.paper.specs.Bounds.{most_walked};
ghost use Rattle.paper.specs.Values.{child_extent, children_at};
ghost use Rattle.containers.specs.Children.{lengths_of};

use heads::Readings;
use runs::Run;

// How children lie that all have their lengths: end to end from the start of the area to its end; or otherwise, with the
// sum of their sizes.
#[derive(Clone, Copy)]
pub enum Lying {
    EndToEnd,
    Scattered(usize),
}

// How long the child at a start is, if it has a length and does not pass the area.
pub fn child_extent(readings: &Readings, area: &[u8], start: usize) -> Option<usize>
    ensures { result ≡ child_extent area.now start }
{
    if area.len() <= start {
        return None;
    }
    let size = readings.extent_of(&area[start..])?;
    if area.len() - start < size {
        return None;
    }
    Some(size)
}

// Still in order: a child that starts where the last one ended.
fn follows(in_order: bool, start: usize, from: usize) -> bool
    ensures { result ≡ in_order && eqb start from }
{
    in_order && start == from
}

// How the children lie that have these starts, if each has its length and does not pass the area.
pub fn lengths_of(readings: &Readings, area: &[u8], starts: &Run) -> Option<Lying>
    requires { (length starts.now ≤ most_walked) × (length area.now ≤ most_walked) }
    ensures { result ≡ lengths_of (length area.now) (children_at area.now starts.now) }
{
    let mut in_order = true;
    let mut from = 0;
    let mut sum = 0;
    for i in 0..starts.len() {
        let start = starts.get(i);
        let size = child_extent(readings, area, start)?;
        in_order = follows(in_order, start, from);
        from = start + size;
        sum += size;
    }
    if follows(in_order, from, area.len()) {
        return Some(Lying::EndToEnd);
    }
    Some(Lying::Scattered(sum))
}
