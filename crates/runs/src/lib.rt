// Runs: numbers of one width, one to four bytes, that stand one after another in lent bytes. To a contract a run is the
// list of its numbers.
#![tactic(auto)]

ghost use Rattle.std.specs.Prelude.{◌≡◌, ◌*◌, ◌^◌, ◌≤◌, ◌<◌, length, get_or};
ghost use Rattle.paper.specs.Words.{numbers};

use std::marker::Model;

// The bytes from the run's start on, how many each number takes, and how many numbers there are.
#[derive(Drop)]
pub struct Run<'a> {
    bytes: &'a [u8],
    width: usize,
    count: usize,
}

impl<'a> Model for Run<'a> {
    ghost use Rattle.std.specs.Prelude.{List, ℕ, ◌*◌, ◌≤◌, length};

    ghost Value = { List ℕ };

    ghost use Rattle.paper.specs.Words.{numbers};

    ghost view = { λ r. numbers r.width r.count r.bytes.now };

    ghost invariant = { λ r. (r.count * r.width ≤ length r.bytes.now) × (1 ≤ r.width) × (r.width ≤ 4) };
}

impl<'a> Run<'a> {
    // The numbers of a width at the front of lent bytes, so many.
    pub fn new(bytes: &'a [u8], width: usize, count: usize) -> Run<'a>
        requires { (count * width ≤ length bytes.now) × (1 ≤ width) × (width ≤ 4) }
        ensures { result ≡ numbers width count bytes.now }
    {
        Run {
            bytes,
            width,
            count,
        }
    }

    // How many numbers there are.
    pub fn len(&self) -> usize
        ensures { result ≡ length self.now }
    {
        self.count
    }

    // The number at a place of the run.
    pub fn get(&self, place: usize) -> usize
        requires { place < length self.now }
        ensures { (result ≡ get_or self.now place 0) × (result < 2 ^ 32) }
    {
        numbers::read(self.bytes, place * self.width, self.width)
    }
}
