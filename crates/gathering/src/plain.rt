// Places that are told at once to hold no id: most cells, nulls and missing fields.
ghost use Rattle.std.specs.Prelude.{true, ◌≡◌, ◌<◌, length};
ghost use Rattle.gathering.specs.Gathering.{Plain};

// Nothing; a cell alone; or one leftover that is no container. (Other places may hold no id as well.)
pub fn plain(schema: &[u8], node: usize, body: &[u8]) -> bool
    requires { node < length schema.now }
    ensures { result ≡ true → Plain schema.now node body.now }
{
    if body.len() == 0 {
        return true;
    }
    let tag = body[0];
    if tag == 0x42 {
        return schema[node] == 0x10;
    }
    if tag != 0x41 {
        return false;
    }
    if body.len() < 4 {
        return false;
    }
    let size = numbers::read(body, 1, 2);
    if 3 + size != body.len() {
        return false;
    }
    body[3] % 4 < 2
}
