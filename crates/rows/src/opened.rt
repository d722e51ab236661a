// A row opened.
ghost use Rattle.std.specs.Prelude.{◌≡◌};
ghost use Rattle.dictionary.specs.Lent.{lent_read};

use crate::judging::RowParts;
use dictionary::Dictionary;

// What was read of a row, and the dictionary that its metadata opens to.
#[derive(Drop)]
pub struct OpenRow<'a> {
    pub parts: RowParts<'a>,
    pub dictionary: Dictionary<'a>,
    pub ghost opens: { dictionary ≡ lent_read parts.metadata.now },
}
