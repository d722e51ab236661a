// A place that needs no further look: most elements of a list of cells are such, and all missing fields.
ghost use Rattle.std.specs.Prelude.{true, ◌≡◌, ℕ};
ghost use Rattle.paper.specs.Metadata.{Dictionary};
ghost use Rattle.paper.specs.Schemas.{Schema};
ghost use Rattle.schemas.specs.Positions.{Stands};
ghost use Rattle.places.specs.Verdicts.{place_verdict};
ghost use Rattle.places.specs.declared.verdicts.Verdict.TheVariants.{Lawful};
ghost use Rattle.rows.specs.Quick.{NodeThere};

// A place under a node is empty, or a good cell alone under a column: then it is lawful. Of other places this says nothing.
pub fn plainly_lawful(schema: &[u8], node: usize, body: &[u8]) -> bool
    requires { NodeThere schema.now node }
    ensures { result ≡ true → (levels : ℕ) (names : Dictionary) (under : Schema) → Stands levels schema.now node under → place_verdict under levels names body.now ≡ Lawful }
{
    let end = body.len();
    if end == 0 {
        return true;
    }
    if end < 3 {
        return false;
    }
    if body[0] != 0x42 {
        return false;
    }
    if schema[node] != 0x10 {
        return false;
    }
    if end - 3 != numbers::read(body, 1, 2) {
        return false;
    }
    cells::good(schema[node + 3], &body[3..end])
}
