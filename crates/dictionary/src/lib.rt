// Dictionary: metadata judged by the rules of 01, and its names.
//
// Whoever calls `open` has had the metadata judged; the methods' `requires` ask that ids are below the count.
#![tactic(auto)]

mod ids;
mod lent;

ghost use Rattle.std.specs.Prelude.{true, [], ◌≡◌, ◌+◌, ◌*◌, ◌/◌, ◌%◌, ◌^◌, ◌≤◌, ◌<◌, eqb, length, get_or};
ghost use Rattle.numbers.specs.Little.{number_at};
ghost use Rattle.order.specs.Before.{before};
ghost use Rattle.paper.specs.Words.{part, is_there};
ghost use Rattle.paper.specs.Metadata.{offsets_good, cut_at, rising, names_in, dictionary_of};
ghost use Rattle.dictionary.specs.Judging.{lawful_names, judged_of, Opened};

pub use ids::{InputId, NormalId, input_id, input_id_at};
pub use lent::{Dictionary, judge, open};
use numbers::read;
use order::is_before;
use runs::Run;

// What was read of lawful metadata: the offset size, the count, and the sorted flag.
#[derive(Clone, Copy)]
struct Names {
    width: usize,
    count: usize,
    sorted: bool,
}

// The first offset is 0, offsets never fall, the last is the length of the names.
fn offsets_good(offsets: &Run, area: &[u8]) -> bool
    requires { 1 ≤ length offsets.now }
    ensures { result ≡ offsets_good offsets.now area.now }
{
    let mut last = offsets.get(0);
    if last != 0 {
        return false;
    }
    for i in 1..offsets.len() {
        let next = offsets.get(i);
        if next < last {
            return false;
        }
        last = next;
    }
    last == area.len()
}

// A name comes before the one that follows it.
fn rises(area: &[u8], from: usize, to: usize, next: usize) -> bool
    requires { (from ≤ to) × (to ≤ next) × (next ≤ length area.now) }
    ensures { result ≡ before (part area.now from to) (part area.now to next) }
{
    is_before(&area[from..to], &area[to..next])
}

// Names rise strictly by unsigned bytes.
fn names_rise(offsets: &Run, area: &[u8]) -> bool
    requires { offsets_good offsets.now area.now ≡ true }
    ensures { result ≡ rising (cut_at area.now offsets.now) }
{
    if offsets.len() <= 1 {
        return true;
    }
    let mut from = offsets.get(0);
    let mut to = offsets.get(1);
    for i in 2..offsets.len() {
        let next = offsets.get(i);
        if !rises(area, from, to, next) {
            return false;
        }
        from = to;
        to = next;
    }
    true
}

// The offsets keep their rules, and with the flag set the names rise.
fn names_lawful(offsets: &Run, area: &[u8], sorted: bool) -> bool
    requires { 1 ≤ length offsets.now }
    ensures { result ≡ lawful_names offsets.now area.now sorted }
{
    if !offsets_good(offsets, area) {
        return false;
    }
    if !sorted {
        return true;
    }
    names_rise(offsets, area)
}

// What a first byte says, and the count behind it.
fn head_read(metadata: &[u8], header: usize) -> Names
    requires { (header < 256) × (2 + header / 64 ≤ length metadata.now) }
    ensures count { (result.count ≡ number_at metadata.now 1 (header / 64 + 1)) × (result.count < 256 ^ (header / 64 + 1)) }
    ensures told { result ≡ record { width = header / 64 + 1; count = result.count; sorted = eqb (header / 16 % 2) 1 } }
{
    let width = header / 64 + 1;
    let count = read(metadata, 1, width);
    Names {
        width,
        count,
        sorted: header / 16 % 2 == 1,
    }
}

// What is read of metadata that keeps its rules.
fn names_read(metadata: &[u8]) -> Names
    requires { is_there (dictionary_of metadata.now) ≡ true }
    ensures { Opened metadata.now result }
{
    head_read(metadata, usize::from(metadata[0]))
}

// What is read of lent metadata, if it keeps its rules.
fn judged(metadata: &[u8]) -> Option<Names>
    ensures { result ≡ judged_of metadata.now }
{
    if metadata.len() == 0 {
        return None;
    }
    let header = usize::from(metadata[0]);
    if header % 16 != 1 {
        return None;
    }
    if header / 32 % 2 != 0 {
        return None;
    }
    let width = header / 64 + 1;
    let start = 1 + width;
    if metadata.len() < start {
        return None;
    }
    let head = head_read(metadata, header);
    let names = start + (head.count + 1) * width;
    if metadata.len() < names {
        return None;
    }
    let offsets = Run::new(&metadata[start..], width, head.count + 1);
    if names_lawful(&offsets, &metadata[names..], head.sorted) {
        return Some(head);
    }
    None
}

// The name of an id.
fn name(metadata: &[u8], opened: Names, id: InputId) -> &[u8]
    requires { Opened metadata.now opened × (id.0 < opened.count) }
    ensures { result.now ≡ get_or (names_in metadata.now) id.0 [] }
{
    let width = opened.width;
    let count = opened.count;
    let place = 1 + width + id.0 * width;
    let area = 1 + width + (count + 1) * width;
    let from = read(metadata, place, width);
    let to = read(metadata, place + width, width);
    let names = &metadata[area..];
    &names[from..to]
}
