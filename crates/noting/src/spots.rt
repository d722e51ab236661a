// What was noted, read back.
ghost use Rattle.std.specs.Prelude.{◌≡◌, ◌<◌, length, get_or};

// The number at a place of a table.
pub fn spot(table: &[u16], place: usize) -> usize
    requires { place < length table.now }
    ensures { result ≡ get_or table.now place 0 }
{
    table[place] as usize
}
