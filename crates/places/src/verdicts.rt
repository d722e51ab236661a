// What a row, or a part of one, comes to.
ghost use Rattle.std.specs.Prelude.{cond, ◌≡◌};
ghost use Rattle.places.specs.Verdicts.{worse, broken_if};

#[derive(Clone, Copy, PartialEq, Eq)]
pub enum Verdict {
    // It parses and keeps rules a to f.
    Lawful,
    // It parses and breaks a rule: 7.
    Broken,
    // It does not parse under its schema: 6.
    Unparsed,
}

// A 6 anywhere wins, then a 7.
pub fn worse(first: Verdict, second: Verdict) -> Verdict
    ensures { result ≡ worse first second }
{
    match first {
        Verdict::Unparsed => Verdict::Unparsed,
        Verdict::Lawful => second,
        Verdict::Broken => broken_if(true, second),
    }
}

// Where a rule is broken besides.
pub fn broken_if(broken: bool, verdict: Verdict) -> Verdict
    ensures { result ≡ broken_if broken verdict }
{
    if broken && verdict == Verdict::Lawful {
        Verdict::Broken
    } else {
        verdict
    }
}

// A cell has no rules to break.
pub fn parsed(good: bool) -> Verdict
    ensures { result ≡ cond good Verdict.Lawful Verdict.Unparsed }
{
    if good {
        Verdict::Lawful
    } else {
        Verdict::Unparsed
    }
}
