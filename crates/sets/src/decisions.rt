ghost use Rattle.std.specs.Prelude.{◌≡◌, MatchOption};
ghost use Rattle.std.specs.Int.Count.{count_trailing_zeros};
ghost use Rattle.sets.specs.Sets.{Lowest};
ghost use Rattle.sets.specs.Walks.{decisions};
ghost use Rattle.std.specs.Iterator.{YieldsFirstBy, item_count};

use crate::decision::Decision;
use crate::set::{Set, without};

// How many places stand empty below the lowest decision: all 64 where there is none.
fn zeros_below(set: Set) -> u8
    ensures { result ≡ count_trailing_zeros 64 set }
{
    set.trailing_zeros() as u8
}

// The lowest decision of a set, if it has one.
pub fn lowest(set: Set) -> Option<Decision>
    ensures { MatchOption result (set ≡ 0) (λ d. Lowest d.place set) }
{
    Decision::new(zeros_below(set))
}

// The decisions of a set, lowest first.
#[derive(Clone, Copy)]
pub struct Decisions {
    rest: Set,
}

impl Decisions {
    pub fn of(set: Set) -> Decisions
        ensures { result.rest ≡ set }
    {
        Decisions { rest: set }
    }
}

impl Iterator for Decisions {
    type Item = Decision;

    ghost next_gives = { YieldsFirstBy (λ d. d.place) (λ s. decisions s.rest) };

    ghost remaining = { item_count (λ s. decisions s.rest) };

    fn next(&mut self) -> Option<Decision> {
        let d = lowest(self.rest)?;
        self.rest = without(self.rest, d);
        Some(d)
    }
}
