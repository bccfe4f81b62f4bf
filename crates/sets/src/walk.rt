ghost use Rattle.std.specs.Prelude.{◌≡◌, ℕ, ◌+◌, ◌-◌, ◌^◌, ◌<◌, ◌≤◌, [], ◌∷◌, Decides, MatchOption};
ghost use Rattle.std.specs.Int.Count.{count_leading_zeros};
ghost use Rattle.sets.specs.Sets.{Highest, Between};
ghost use Rattle.sets.specs.Walks.{sets_from, Next};

use crate::set::{Set, difference, intersection, union};
use crate::span::Span;

// How many places stand empty above the highest decision: all 64 where there is none.
fn zeros_above(set: Set) -> u32
    ensures { result ≡ count_leading_zeros 64 set }
{
    set.leading_zeros()
}

// The places up to the highest decision of a set that is not empty, all filled.
#[tactic(auto, using(crate::proofs::Seeking::highest_leading))]
fn filled_to_highest(set: Set) -> Set
    requires { 0 < set }
    ensures { (d : ℕ) × Highest d set × (result ≡ 2 ^ (d + 1) - 1) }
{
    u64::MAX >> zeros_above(set)
}

// A place in the walk through the sets of a span, lowest first. It always stands at one of them, so a step gives the next place or none:
// as an iterator it could stand at none, and each step would ask whether it does. `Sets` is the iterator over what a walk has ahead.
#[derive(Clone, Copy)]
pub struct Walk {
    span: Span,
    at: Set,
    ghost inside: { Between span.lower span.upper at },
}

impl Walk {
    // At the lowest set: every set of the span is to come.
    pub fn new(span: Span) -> Walk
        ensures span { result.span ≡ span }
        ensures first { result.at ≡ span.lower }
    {
        Walk {
            span,
            at: span.lower(),
        }
    }

    // Through the sets inside `upper`, at the first that is not below `start`; none where they are all below it. Where `start` has decisions
    // that `upper` lacks, the last set below it agrees with it above the highest of those, and has from there on all of `upper`.
    pub fn seek(upper: Set, start: Set) -> Option<Walk>
        ensures { MatchOption result
            (sets_from start 0 upper ≡ [])
            (λ w. (w.span.lower ≡ 0) × (w.span.upper ≡ upper) × (sets_from start 0 upper ≡ sets_from w.at 0 upper)) }
    {
        let span = Span::new(0, upper);
        let outside = difference(start, upper);
        if outside == 0 {
            return Some(Walk { span, at: start });
        }
        let below = intersection(union(start, filled_to_highest(outside)), upper);
        Walk { span, at: below }.next()
    }

    // The set at which the walk stands.
    pub fn set(self) -> Set
        ensures { result ≡ self.at }
    {
        self.at
    }

    // Whether the walk has come to the upper set, which is the last.
    fn at_end(self) -> bool
        ensures { Decides result (self.span.upper ≤ self.at) }
    {
        self.at >= self.span.upper()
    }

    // The next set of the span. As numbers, 2 to the 64 less what the upper set has besides `at` carries past it.
    fn successor(self) -> Set
        requires { self.at < self.span.upper }
        ensures inside { Between self.span.lower self.span.upper result }
        ensures next { Next self.span.lower self.span.upper self.at result }
    {
        let upper = self.span.upper();
        let missing = upper - self.at;
        (!(missing - 1) & upper) | self.span.lower()
    }

    // One step on: what was to come is the set just left, and then what is to come; none after the last set.
    #[tactic(auto, using(crate::proofs::Listing::from_last, crate::proofs::Listing::from_next, crate::proofs::Members::sub_le))]
    pub fn next(self) -> Option<Walk>
        ensures { MatchOption result
            (sets_from self.at self.span.lower self.span.upper ≡ self.at ∷ [])
            (λ w. (w.span ≡ self.span)
            × (sets_from self.at self.span.lower self.span.upper ≡ self.at ∷ sets_from w.at self.span.lower self.span.upper)) }
    {
        if self.at_end() {
            None
        } else {
            Some(Walk {
                span: self.span,
                at: self.successor(),
            })
        }
    }
}
