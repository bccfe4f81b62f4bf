use crate::refusal::Refusal;
use std::error::Error;
use std::fmt;

impl fmt::Display for Refusal {
    ghost use Rattle.std.specs.Prelude.{Some};
    ghost use Rattle.refusals.specs.Shown.{refusal_text};

    ghost output = { λ e. Some (refusal_text e) };

    fn fmt<W: fmt::Write>(&self, f: &mut fmt::Formatter<W>) -> fmt::Result {
        write!(f, "refused {}", self.number())?;
        match self.told() {
            Some(value) => write!(f, ", told {value}"),
            None => Ok(()),
        }
    }
}

impl Error for Refusal {}
