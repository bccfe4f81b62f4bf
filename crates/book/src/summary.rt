ghost use Rattle.std.specs.Prelude.{◌≡◌};

use crate::page::Page;
use rules::way::Way;
use sets::set::Set;

// What is told of a page beside its ranks: its way, its set, and on how many rules it rests.
#[derive(Clone, Copy, Debug, PartialEq, Eq)]
pub struct Summary {
    pub way: Way,
    pub set: Set,
    pub rules: usize,
}

impl From<&Page> for Summary {
    ghost from_gives = { λ page told. (told.way ≡ page.now.way) × (told.«set» ≡ page.now.«set») × (told.rules ≡ page.now.rules) };

    fn from(page: &Page) -> Summary {
        Summary {
            way: page.way,
            set: page.set,
            rules: page.rules,
        }
    }
}
