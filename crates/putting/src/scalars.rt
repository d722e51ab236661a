// Scalars: a null, and a cell as a value.
ghost use Rattle.std.specs.Prelude.{true, [], ◌∷◌, ◌≡◌, ◌≤◌, ◌<◌, length};
ghost use Rattle.paper.specs.Bounds.{most_walked};
ghost use Rattle.paper.specs.Cells.{cell_meaning};
ghost use Rattle.paper.specs.Normal.{text_bytes, prefixed_bytes};
ghost use Rattle.paper.specs.Schemas.{column_code};
ghost use Rattle.paper.specs.Words.{is_there};
ghost use Rattle.rebuilt.specs.Rebuilt.{cell_value};
ghost use Rattle.putting.specs.Put.{Room, PutAs};

// Puts one byte.
fn single(byte: usize, out: &mut [u8], floor: usize, end: usize) -> Option<usize>
    requires { Room out.old floor end × (byte < 256) }
    ensures { PutAs (byte ∷ []) out.old out.new floor end result }
{
    if end - floor < 1 {
        return None;
    }
    let start = end - 1;
    numbers::write(out, start, 1, byte);
    Some(start)
}

// Puts bytes with a first byte in front.
fn headed(first: usize, s: &[u8], out: &mut [u8], floor: usize, end: usize) -> Option<usize>
    requires { Room out.old floor end × (first < 256) × (length s.now ≤ most_walked) }
    ensures { PutAs (first ∷ s.now) out.old out.new floor end result }
{
    if end - floor < 1 + s.len() {
        return None;
    }
    let body = writing::copied(s, out, end);
    let start = body - 1;
    numbers::write(out, start, 1, first);
    Some(start)
}

// Puts bytes with their length and a first byte in front.
fn prefixed(code: usize, s: &[u8], out: &mut [u8], floor: usize, end: usize) -> Option<usize>
    requires { Room out.old floor end × (code < 64) × (length s.now ≤ most_walked) }
    ensures { PutAs (prefixed_bytes code s.now) out.old out.new floor end result }
{
    if end - floor < 5 + s.len() {
        return None;
    }
    let body = writing::copied(s, out, end);
    let count = body - 4;
    numbers::write(out, count, 4, s.len());
    let start = count - 1;
    numbers::write(out, start, 1, 4 * code);
    Some(start)
}

// Puts a string: of at most 63 bytes with one first byte, else with its length in front.
fn text(s: &[u8], out: &mut [u8], floor: usize, end: usize) -> Option<usize>
    requires { Room out.old floor end × (length s.now ≤ most_walked) }
    ensures { PutAs (text_bytes s.now) out.old out.new floor end result }
{
    if s.len() <= 63 {
        headed(4 * s.len() + 1, s, out, floor, end)
    } else {
        prefixed(16, s, out, floor, end)
    }
}

// Puts a null.
pub fn null(out: &mut [u8], floor: usize, end: usize) -> Option<usize>
    requires { Room out.old floor end }
    ensures { PutAs (0x00 ∷ []) out.old out.new floor end result }
{
    single(0, out, floor, end)
}

// Puts a good cell as a value: true is type 1 and false type 2; a string's and a binary's length stands in front.
pub fn cell(code: u8, s: &[u8], out: &mut [u8], floor: usize, end: usize) -> Option<usize>
    requires { Room out.old floor end × (column_code code ≡ true) × (is_there (cell_meaning (record { code = code }) s.now) ≡ true) × (length s.now ≤ most_walked) }
    ensures { PutAs (cell_value code s.now) out.old out.new floor end result }
{
    match code {
        1 if s[0] == 1 => single(4, out, floor, end),
        1 => single(8, out, floor, end),
        15 => prefixed(15, s, out, floor, end),
        16 => text(s, out, floor, end),
        _ => headed(4 * numbers::wide(code), s, out, floor, end),
    }
}
