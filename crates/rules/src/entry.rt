// What "not" adds to an entry's number.
pub const NOT: u16 = 0x8000;

// An entry of a rule's body: a condition's number, with or without "not" before it. A flag and no enum, which would be no plainer: both kinds
// have the one number, and whoever asks an entry asks for it first.
#[derive(Clone, Copy, Debug, PartialEq, Eq)]
pub struct Entry {
    pub condition: u16,
    pub negated: bool,
}

// The entry that a number names.
impl From<u16> for Entry {
    ghost use Rattle.std.specs.Prelude.{◌≡◌};
    ghost use Rattle.answer_sets.specs.Naming.{entry_named};
    ghost use Rattle.rules.specs.Shapes.{entry_of};

    ghost from_gives = { λ number e. entry_of e ≡ entry_named number };

    fn from(number: u16) -> Entry {
        Entry {
            condition: number % NOT,
            negated: number >= NOT,
        }
    }
}

// The number of an entry; of a condition from 0x8000 on, that of the condition less 0x8000.
impl From<Entry> for u16 {
    ghost use Rattle.std.specs.Prelude.{◌≡◌};
    ghost use Rattle.answer_sets.specs.Naming.{entry_number};
    ghost use Rattle.rules.specs.Shapes.{entry_of};

    ghost from_gives = { λ e number. number ≡ entry_number (entry_of e) };

    fn from(e: Entry) -> u16 {
        let condition = e.condition % NOT;
        if e.negated {
            condition + NOT
        } else {
            condition
        }
    }
}
