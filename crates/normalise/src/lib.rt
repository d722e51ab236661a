// A lawful document written in its normal form: refusal 8, the 9 of two buffers, and what is written.
//
// The value is first written into scratch, so that its length is known before a byte of the caller's buffers is touched.
// Scratch goes by the sizes of the dictionary and of the value, so that a small document does not pay for a full-size one.
#![tactic(auto)]

ghost use Rattle.std.specs.Prelude.{true, ◌≡◌, ◌*◌, ◌≤◌, length, replicate, MatchResult, Err};
ghost use Rattle.dictionary.specs.Lent.{Lent as Opens};
ghost use Rattle.naming.specs.Chosen.{chosen_names, Chosen};
ghost use Rattle.paper.specs.Bounds.{most_names, most_walked};
ghost use Rattle.paper.specs.Limits.{most_levels, most_value};
ghost use Rattle.paper.specs.Meaning.{Doc};
ghost use Rattle.paper.specs.Normal.{names_used, normal_form};
ghost use Rattle.paper.specs.Operations.{lengths_of, written};
ghost use Rattle.paper.specs.Values.{meaning_of};
ghost use Rattle.normalise.specs.Answered.{Answered, Lent, Numbered, Standing};

use dictionary::Dictionary;
use heads::Readings;
use paper::{DocumentAnswer, DocumentLengths, Refusal, Unwritten};

// Refusal 8, and the 9 of two buffers: why a document of those lengths is not written, if it is not.
pub fn fits(
    needed: DocumentLengths,
    metadata_out: &[u8],
    value_out: &[u8],
) -> Result<(), Unwritten<DocumentLengths>>
    ensures { MatchResult result (λ _. (needed.value ≤ most_value) × (needed.metadata ≤ length metadata_out.now) × (needed.value ≤ length value_out.now)) (λ why. (d : Doc) → lengths_of (normal_form d) ≡ needed → Answered (written d) metadata_out.now metadata_out.now value_out.now value_out.now (Err why)) }
{
    if paper::MOST_VALUE < needed.value {
        return Err(Unwritten::Refused(Refusal::TooLarge));
    }
    if metadata_out.len() < needed.metadata || value_out.len() < needed.value {
        return Err(Unwritten::Short(needed));
    }
    Ok(())
}

// Hands out a value in normal form, and the metadata of the chosen names, if the value is not too large and both buffers
// have room.
pub fn hand_out(
    dictionary: &Dictionary,
    chosen: &[u16],
    value: &[u8],
    metadata_out: &mut [u8],
    value_out: &mut [u8],
) -> DocumentAnswer
    requires { Chosen dictionary.now chosen.now }
    ensures { (d : Doc) → chosen_names dictionary.now.names chosen.now ≡ names_used d → value.now ≡ (normal_form d).value → Answered (written d) metadata_out.old metadata_out.new value_out.old value_out.new result }
{
    let needed = DocumentLengths {
        metadata: naming::size(dictionary, chosen),
        value: value.len(),
    };
    fits(needed, metadata_out, value_out)?;
    naming::write(dictionary, chosen, metadata_out);
    numbers::put(value_out, 0, value);
    Ok(needed)
}

// The names that a value uses, numbered: the normal id of each id used, and the id that is chosen for each normal one.
#[derive(Clone, Copy)]
struct UsedNames<'a> {
    ranks: &'a [u16],
    chosen: &'a [u16],
}

// Writes the value at the end of a room that is twice as long, and hands it out.
fn write_out(
    readings: &Readings,
    dictionary: &Dictionary,
    value: &[u8],
    names: UsedNames,
    room: &mut [u8],
    metadata_out: &mut [u8],
    value_out: &mut [u8],
) -> DocumentAnswer
    requires { Numbered dictionary.now value.now names.ranks.now names.chosen.now × (2 * length value.now ≤ length room.old) × (length room.old ≤ most_walked) }
    ensures { (d : Doc) → meaning_of most_levels dictionary.now.names value.now ≡ Some d → Answered (written d) metadata_out.old metadata_out.new value_out.old value_out.new result }
{
    let end = room.len();
    let start = writing::value(paper::MOST_LEVELS, readings, names.ranks, value, room, end);
    hand_out(
        dictionary,
        names.chosen,
        &room[start..end],
        metadata_out,
        value_out,
    )
}

// Writes by way of a room of N bytes.
fn in_room<const N: usize>(
    readings: &Readings,
    dictionary: &Dictionary,
    value: &[u8],
    names: UsedNames,
    metadata_out: &mut [u8],
    value_out: &mut [u8],
) -> DocumentAnswer
    requires { Numbered dictionary.now value.now names.ranks.now names.chosen.now × (2 * length value.now ≤ N) × (N ≤ most_walked) }
    ensures { (d : Doc) → meaning_of most_levels dictionary.now.names value.now ≡ Some d → Answered (written d) metadata_out.old metadata_out.new value_out.old value_out.new result }
{
    let mut room = [0u8; N];
    write_out(
        readings,
        dictionary,
        value,
        names,
        &mut room,
        metadata_out,
        value_out,
    )
}

// With the names numbered: the room goes by the value's length.
fn with_room(
    readings: &Readings,
    dictionary: &Dictionary,
    value: &[u8],
    names: UsedNames,
    metadata_out: &mut [u8],
    value_out: &mut [u8],
) -> DocumentAnswer
    requires { Numbered dictionary.now value.now names.ranks.now names.chosen.now × (length value.now ≤ most_value) }
    ensures { (d : Doc) → meaning_of most_levels dictionary.now.names value.now ≡ Some d → Answered (written d) metadata_out.old metadata_out.new value_out.old value_out.new result }
{
    if value.len() <= 256 {
        return in_room::<512>(readings, dictionary, value, names, metadata_out, value_out);
    }
    if value.len() <= 2048 {
        return in_room::<4096>(readings, dictionary, value, names, metadata_out, value_out);
    }
    in_room::<32768>(readings, dictionary, value, names, metadata_out, value_out)
}

// Numbers the names that the value uses, in tables that have an entry for each name of the dictionary.
fn with_tables(
    dictionary: &Dictionary,
    value: &[u8],
    used: &mut [u8],
    ranks: &mut [u16],
    chosen: &mut [u16],
    metadata_out: &mut [u8],
    value_out: &mut [u8],
) -> DocumentAnswer
    requires lent { Opens dictionary.now × Lent dictionary.now value.now }
    requires tables { (length dictionary.now.names ≤ length used.old) × (length dictionary.now.names ≤ length ranks.old) × (length dictionary.now.names ≤ length chosen.old) }
    requires clean { used.old ≡ replicate (length used.old) 0 }
    ensures { (d : Doc) → meaning_of most_levels dictionary.now.names value.now ≡ Some d → Answered (written d) metadata_out.old metadata_out.new value_out.old value_out.new result }
{
    let readings = Readings::new();
    marking::mark(paper::MOST_LEVELS, &readings, value, used);
    let count = ranking::rank(dictionary, used, ranks, chosen);
    let names = UsedNames {
        ranks,
        chosen: &chosen[..count],
    };
    with_room(&readings, dictionary, value, names, metadata_out, value_out)
}

// Writes by way of tables of N entries.
fn in_tables<const N: usize>(
    dictionary: &Dictionary,
    value: &[u8],
    metadata_out: &mut [u8],
    value_out: &mut [u8],
) -> DocumentAnswer
    requires { Opens dictionary.now × Lent dictionary.now value.now × (length dictionary.now.names ≤ N) × (N ≤ most_names) }
    ensures { (d : Doc) → meaning_of most_levels dictionary.now.names value.now ≡ Some d → Answered (written d) metadata_out.old metadata_out.new value_out.old value_out.new result }
{
    let mut used = [0u8; N];
    let mut ranks = [0u16; N];
    let mut chosen = [0u16; N];
    with_tables(
        dictionary,
        value,
        &mut used,
        &mut ranks,
        &mut chosen,
        metadata_out,
        value_out,
    )
}

// The tables go by the number of names in the dictionary.
fn by_tables(
    dictionary: &Dictionary,
    value: &[u8],
    metadata_out: &mut [u8],
    value_out: &mut [u8],
) -> DocumentAnswer
    requires { Lent dictionary.now value.now }
    ensures { (d : Doc) → meaning_of most_levels dictionary.now.names value.now ≡ Some d → Answered (written d) metadata_out.old metadata_out.new value_out.old value_out.new result }
{
    let names = dictionary.len();
    if names <= 64 {
        return in_tables::<64>(dictionary, value, metadata_out, value_out);
    }
    if names <= 1024 {
        return in_tables::<1024>(dictionary, value, metadata_out, value_out);
    }
    in_tables::<16384>(dictionary, value, metadata_out, value_out)
}

// A scalar uses no names and is its own normal form, but a string of at most 63 bytes that has its length in front. Of other
// values this says nothing.
fn stands(value: &[u8]) -> bool
    ensures { result ≡ true → Standing value.now }
{
    if value.is_empty() {
        return false;
    }
    let first = value[0];
    match first % 4 {
        1 => true,
        0 => first <= 80 && (first != 64 || 68 < value.len()),
        _ => false,
    }
}

// Writes the normal form of a lawful document. A value that is its own is handed out as it stands, without names.
pub fn normalise(
    dictionary: &Dictionary,
    value: &[u8],
    metadata_out: &mut [u8],
    value_out: &mut [u8],
) -> DocumentAnswer
    requires { Lent dictionary.now value.now }
    ensures { (d : Doc) → meaning_of most_levels dictionary.now.names value.now ≡ Some d → Answered (written d) metadata_out.old metadata_out.new value_out.old value_out.new result }
{
    if stands(value) {
        return hand_out(dictionary, &[], value, metadata_out, value_out);
    }
    by_tables(dictionary, value, metadata_out, value_out)
}
