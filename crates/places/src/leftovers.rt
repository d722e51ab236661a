// What a place's own rules ask of its leftover: that it is a lawful value, and rules a to d.
ghost use Rattle.std.specs.Prelude.{◌≡◌, ℕ, ◌<◌, length};
ghost use Rattle.paper.specs.Meaning.{Doc};
ghost use Rattle.paper.specs.Rows.{leftover_meaning};
ghost use Rattle.paper.specs.Schemas.{Schema};
ghost use Rattle.paper.specs.Words.{at, is_there};
ghost use Rattle.schemas.specs.Positions.{Stands};
ghost use Rattle.places.specs.Leftovers.{left_broken, left_broken_at, beside_broken, with_left};
ghost use Rattle.places.specs.Verdicts.{broken_if};
ghost use Rattle.places.specs.Walking.{LeftReady, BesideReady};

use crate::verdicts::{Verdict, broken_if};
use clashes::clash;
use dictionary::Dictionary;
use heads::Readings;

// A leftover is a lawful value, no longer than a leftover may be.
fn lawful_left(levels: usize, readings: &Readings, dictionary: &Dictionary, left: &[u8]) -> bool
    ensures { result ≡ is_there (leftover_meaning levels dictionary.now.names left.now) }
{
    left.len() <= paper::MOST_LEFTOVER && values::lawful(levels, readings, dictionary, left)
}

// Rule d: no `42`, and an object under an object node or an array under a list node.
fn left_broken(schema: &[u8], node: usize, left: &[u8]) -> bool
    requires { (node < length schema.now) × (0 < length left.now) }
    ensures { result ≡ left_broken_at (at schema.now node) (at left.now 0) }
{
    match schema[node] {
        0x30 => left[0] % 4 == 2,
        0x20 => left[0] % 4 == 3,
        _ => false,
    }
}

// A leftover alone in a place under a node.
pub fn alone(
    levels: usize,
    readings: &Readings,
    dictionary: &Dictionary,
    schema: &[u8],
    node: usize,
    left: &[u8],
) -> Verdict
    requires { LeftReady levels schema.now node }
    ensures { (under : Schema) → Stands levels schema.now node under → result ≡ with_left (leftover_meaning levels dictionary.now.names left.now) λ d. broken_if (left_broken under d) Verdict.Lawful }
{
    if !lawful_left(levels, readings, dictionary, left) {
        return Verdict::Unparsed;
    }
    broken_if(left_broken(schema, node, left), Verdict::Lawful)
}

// Rules a, b and c: both, and the node is no object's, the leftover is no object, or it has a name that the node names.
fn beside_broken(
    readings: &Readings,
    dictionary: &Dictionary,
    schema: &[u8],
    node: usize,
    left: &[u8],
) -> bool
    requires { BesideReady dictionary.now.names schema.now node left.now }
    ensures { (levels : ℕ) (d : Doc) → leftover_meaning levels dictionary.now.names left.now ≡ Some d → (inner : ℕ) (under : Schema) → Stands inner schema.now node under → result ≡ beside_broken under d }
{
    if schema[node] != 0x30 || left[0] % 4 != 2 {
        return true;
    }
    let from = node + 3;
    let to = schemas::frame_end(schema, node);
    clash(readings, dictionary, left, schema, from, to)
}

// A leftover beside something typed, by what that comes to.
pub fn beside(
    levels: usize,
    readings: &Readings,
    dictionary: &Dictionary,
    schema: &[u8],
    node: usize,
    left: &[u8],
    right: Verdict,
) -> Verdict
    requires { LeftReady levels schema.now node }
    ensures { (under : Schema) → Stands levels schema.now node under → result ≡ with_left (leftover_meaning levels dictionary.now.names left.now) λ d. broken_if (beside_broken under d) right }
{
    if !lawful_left(levels, readings, dictionary, left) {
        return Verdict::Unparsed;
    }
    broken_if(
        beside_broken(readings, dictionary, schema, node, left),
        right,
    )
}
