// A lent document judged: refusals 1, 2 and 3, the lowest first.
#![tactic(auto)]

ghost use Rattle.std.specs.Prelude.{true, ◌≡◌, ◌≤◌, length};
ghost use Rattle.paper.specs.Words.{is_there};
ghost use Rattle.paper.specs.Limits.{most_levels, most_value};
ghost use Rattle.paper.specs.Metadata.{Dictionary as Names};
ghost use Rattle.paper.specs.Values.{meaning_of};
ghost use Rattle.documents.specs.Judged.{document_of};

use dictionary::Dictionary;
use heads::Readings;
use paper::Refusal;

// A string alone, which its first byte or the length behind that says to be as long as the value, is lawful. Of other values
// this says nothing.
fn plainly_lawful(value: &[u8]) -> bool
    ensures { result ≡ true → (names : Names) → is_there (meaning_of most_levels names value.now) ≡ true }
{
    if value.is_empty() {
        return false;
    }
    let first = value[0];
    if first % 4 == 1 {
        return usize::from(first / 4) + 1 == value.len();
    }
    if first != 64 {
        return false;
    }
    if value.len() < 5 {
        return false;
    }
    numbers::read(value, 1, 4) + 5 == value.len()
}

// The outermost value ends where the input does, and is lawful.
fn lawful_value(dictionary: &Dictionary, value: &[u8]) -> bool
    requires { length value.now ≤ most_value }
    ensures { result ≡ is_there (meaning_of most_levels dictionary.now.names value.now) }
{
    plainly_lawful(value) || values::lawful(paper::MOST_LEVELS, &Readings::new(), dictionary, value)
}

// Judges a lent document.
pub fn judge<'a>(metadata: &'a [u8], value: &[u8]) -> Result<Dictionary<'a>, Refusal>
    ensures { result ≡ document_of metadata.now value.now }
{
    if paper::MOST_METADATA < metadata.len() {
        return Err(Refusal::TooLong);
    }
    if paper::MOST_VALUE < value.len() {
        return Err(Refusal::TooLong);
    }
    let dictionary = dictionary::judge(metadata).ok_or(Refusal::BadMetadata)?;
    if lawful_value(&dictionary, value) {
        return Ok(dictionary);
    }
    Err(Refusal::BadValue)
}
