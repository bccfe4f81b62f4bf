use std::fmt;

// How a condition stands while some decisions are still open.
#[derive(Clone, Copy, Debug, PartialEq, Eq)]
pub enum Standing {
    // met whatever else is decided
    Met,
    // can no longer be met
    Lost,
    // depends on what else is decided
    Open,
}

impl fmt::Display for Standing {
    ghost use Rattle.std.specs.Prelude.{Some};
    ghost use Rattle.banks.specs.Shown.{standing_text};

    ghost output = { λ standing. Some (standing_text standing) };

    fn fmt<W: fmt::Write>(&self, f: &mut fmt::Formatter<W>) -> fmt::Result {
        f.write_str(match self {
            Standing::Met => "met whatever else is decided",
            Standing::Lost => "can no longer be met",
            Standing::Open => "open",
        })
    }
}
