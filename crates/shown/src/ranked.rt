use judge::ranks::Ranks;
use sets::decisions::Decisions;
use sets::set::Set;
use std::fmt;

// The decisions of a set as they are printed with their ranks, lowest first.
#[derive(Clone, Copy, Debug, PartialEq, Eq)]
pub struct RankedSet {
    pub set: Set,
    pub ranks: Ranks,
}

impl fmt::Display for RankedSet {
    ghost use Rattle.std.specs.Prelude.{Some};
    ghost use Rattle.shown.specs.Shown.{ranked_text};

    ghost output = { λ ranked. Some (ranked_text ranked.ranks.bytes ranked.«set») };

    fn fmt<W: fmt::Write>(&self, f: &mut fmt::Formatter<W>) -> fmt::Result {
        for d in Decisions::of(self.set) {
            write!(f, " {}:{}", d.place(), self.ranks.of(d))?;
        }
        Ok(())
    }
}
