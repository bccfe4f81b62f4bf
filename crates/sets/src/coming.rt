ghost use Rattle.std.specs.Prelude.{◌≡◌};
ghost use Rattle.std.specs.Iterator.{YieldsFirst, item_count};
ghost use Rattle.sets.specs.Walks.{sets_between, sets_from};
ghost use Rattle.sets.specs.Coming.{to_come};

use crate::set::Set;
use crate::span::Span;
use crate::walk::Walk;

// The sets of a span that are still to come, lowest first: those from the one at which a walk stands, or none.
#[derive(Clone, Copy)]
pub struct Sets {
    walk: Option<Walk>,
}

impl Sets {
    // All sets of a span.
    #[tactic(auto, using(crate::proofs::Listing::from_first))]
    pub fn of(span: Span) -> Sets
        ensures { to_come result.walk ≡ sets_between span.lower span.upper }
    {
        Sets {
            walk: Some(Walk::new(span)),
        }
    }

    // The sets inside `upper` that are not below `start`.
    pub fn since(start: Set, upper: Set) -> Sets
        ensures { to_come result.walk ≡ sets_from start 0 upper }
    {
        Sets {
            walk: Walk::seek(upper, start),
        }
    }
}

impl Iterator for Sets {
    type Item = Set;

    ghost next_gives = { YieldsFirst (λ s. to_come s.walk) };

    ghost remaining = { item_count (λ s. to_come s.walk) };

    fn next(&mut self) -> Option<Set> {
        let walk = self.walk?;
        self.walk = walk.next();
        Some(walk.set())
    }
}
