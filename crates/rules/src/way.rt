use std::error::Error;
use std::fmt;

// How "not" is read: by the reduct, or by the complement of the condition.
#[derive(Clone, Copy, Debug, PartialEq, Eq)]
pub enum Way {
    Reduct,
    Complement,
}

// A byte that names no way.
#[derive(Clone, Copy, Debug, PartialEq, Eq)]
pub struct UnknownWay(pub u8);

// The byte by which a book's text names a way.
impl From<Way> for u8 {
    ghost use Rattle.std.specs.Prelude.{◌≡◌};
    ghost use Rattle.rules.specs.Bytes.{way_byte};
    ghost use Rattle.rules.specs.Shapes.{way_of};

    ghost from_gives = { λ way byte. byte ≡ way_byte (way_of way) };

    fn from(way: Way) -> u8 {
        match way {
            Way::Reduct => 1,
            Way::Complement => 2,
        }
    }
}

impl TryFrom<u8> for Way {
    type Error = UnknownWay;

    ghost use Rattle.rules.specs.Bytes.{WayOfByte};

    ghost try_from_gives = { WayOfByte };

    fn try_from(byte: u8) -> Result<Way, UnknownWay> {
        match byte {
            1 => Ok(Way::Reduct),
            2 => Ok(Way::Complement),
            _ => Err(UnknownWay(byte)),
        }
    }
}

impl fmt::Display for Way {
    ghost use Rattle.std.specs.Prelude.{Some};
    ghost use Rattle.rules.specs.Shown.{way_text};

    ghost output = { λ way. Some (way_text way) };

    fn fmt<W: fmt::Write>(&self, f: &mut fmt::Formatter<W>) -> fmt::Result {
        f.write_str(match self {
            Way::Reduct => "reduct",
            Way::Complement => "complement",
        })
    }
}

impl fmt::Display for UnknownWay {
    ghost use Rattle.std.specs.Prelude.{Some};
    ghost use Rattle.rules.specs.Shown.{unknown_way_text};

    ghost output = { λ unknown. Some (unknown_way_text unknown) };

    fn fmt<W: fmt::Write>(&self, f: &mut fmt::Formatter<W>) -> fmt::Result {
        write!(f, "no way has the byte {}", self.0)
    }
}

impl Error for UnknownWay {}
