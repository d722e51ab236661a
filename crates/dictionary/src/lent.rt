// A lent dictionary: metadata that keeps its rules, and its names by their ids.
ghost use Rattle.std.specs.Prelude.{true, [], ◌≡◌, ◌<◌, length, get_or};
ghost use Rattle.order.specs.Before.{before};
ghost use Rattle.paper.specs.Metadata.{rising, dictionary_of};
ghost use Rattle.paper.specs.Words.{is_there};
ghost use Rattle.dictionary.specs.Lent.{Lent, LentBytes, lent_of};

use crate::ids::InputId;
use crate::{Names, judged, name, names_read};
use order::is_before;
use std::marker::Model;

// To a contract it is its names, how many bytes an offset of it takes, whether the names are sorted by its flag, and how long
// its metadata is.
#[derive(Drop)]
pub struct Dictionary<'a> {
    metadata: &'a [u8],
    names: Names,
}

impl<'a> Model for Dictionary<'a> {
    ghost use Rattle.std.specs.Prelude.{ℕ, ◌<◌, length, get_or};
    ghost use Rattle.dictionary.specs.Lent.{LentNames};
    ghost use Rattle.dictionary.specs.Judging.{Opened};
    ghost use Rattle.paper.specs.Metadata.{names_in};

    ghost Value = { LentNames };

    ghost view = { λ d. record { names = names_in d.metadata.now; width = d.names.width; sorted = d.names.sorted; size = length d.metadata.now } };

    ghost invariant = { λ d. Opened d.metadata.now d.names × ((i : ℕ) → get_or d.metadata.now i 0 < 256) };
}

// Opens lent metadata, if it keeps its rules.
pub fn judge(metadata: &[u8]) -> Option<Dictionary<'_>>
    ensures { result ≡ lent_of metadata.now }
{
    let names = judged(metadata)?;
    Some(Dictionary { metadata, names })
}

// Opens metadata that keeps its rules.
pub fn open(metadata: &[u8]) -> Dictionary<'_>
    requires { is_there (dictionary_of metadata.now) ≡ true }
    ensures { Some result ≡ lent_of metadata.now }
{
    let names = names_read(metadata);
    Dictionary { metadata, names }
}

impl<'a> Dictionary<'a> {
    // How many names there are.
    pub fn len(&self) -> usize
        ensures count { result ≡ length self.now.names }
        ensures lent { Lent self.now }
    {
        self.names.count
    }

    // How many bytes an offset takes.
    pub fn width(&self) -> usize
        ensures { result ≡ self.now.width }
    {
        self.names.width
    }

    // How many bytes its metadata has.
    pub fn size(&self) -> usize
        ensures size { result ≡ self.now.size }
        ensures bytes { LentBytes self.now }
    {
        self.metadata.len()
    }

    // Its flag says that its names are sorted, and then they are.
    pub fn is_sorted(&self) -> bool
        ensures flag { result ≡ self.now.sorted }
        ensures rises { result ≡ true → rising self.now.names ≡ true }
    {
        self.names.sorted
    }

    // The name of an id.
    pub fn name(&self, id: InputId) -> &'a [u8]
        requires { id.0 < length self.now.names }
        ensures { result.now ≡ get_or self.now.names id.0 [] }
    {
        name(self.metadata, self.names, id)
    }

    // The name of one id comes before that of another. In a sorted dictionary, rising ids are rising names.
    pub fn comes_before(&self, first: InputId, second: InputId) -> bool
        requires { (first.0 < length self.now.names) × (second.0 < length self.now.names) }
        ensures { result ≡ before (get_or self.now.names first.0 []) (get_or self.now.names second.0 []) }
    {
        if self.names.sorted {
            return first.0 < second.0;
        }
        is_before(self.name(first), self.name(second))
    }
}
