ghost use Rattle.std.specs.Fmt.{WritesOnOk};
ghost use Rattle.sets.specs.Walks.{decisions};
ghost use Rattle.shown.specs.Shown.{more_text};

use sets::decisions::Decisions;
use sets::set::Set;
use std::fmt;

// Writes each decision after a comma.
fn write_more<W: fmt::Write>(f: &mut fmt::Formatter<W>, rest: Decisions) -> fmt::Result
    ensures { WritesOnOk W.write_str_gives f.old result (more_text (decisions rest.rest)) f.new }
{
    for d in rest {
        write!(f, ", {}", d.place())?;
    }
    Ok(())
}

// A set as it is printed: its decisions in braces, lowest first.
#[derive(Clone, Copy, Debug, PartialEq, Eq)]
pub struct Braces(pub Set);

impl fmt::Display for Braces {
    ghost use Rattle.std.specs.Prelude.{Some};
    ghost use Rattle.shown.specs.Shown.{set_text};

    ghost output = { λ braces. Some (set_text braces.0) };

    fn fmt<W: fmt::Write>(&self, f: &mut fmt::Formatter<W>) -> fmt::Result {
        write!(f, "{{")?;
        let mut decisions = Decisions::of(self.0);
        if let Some(first) = decisions.next() {
            write!(f, "{}", first.place())?;
            write_more(f, decisions)?;
        }
        write!(f, "}}")
    }
}
