ghost use Rattle.std.specs.Prelude.{◌≡◌, ℕ, Decides};
ghost use Rattle.sets.specs.Sets.{◌⊆◌, ◌∩◌, Between};

use crate::set::{Set, intersection, is_subset};

// The part of a set inside an outer one: the largest set inside both.
#[tactic(auto, using(crate::proofs::Members::and_first, crate::proofs::Members::and_second, crate::proofs::Members::and_greatest))]
fn part(set: Set, outer: Set) -> Set
    ensures value { result ≡ set ∩ outer }
    ensures first { result ⊆ set }
    ensures second { result ⊆ outer }
    ensures greatest { (x : ℕ) → x ⊆ set → x ⊆ outer → x ⊆ result }
{
    intersection(set, outer)
}

// A lower set inside an upper set: what is decided, inside what may still be decided.
#[derive(Clone, Copy)]
pub struct Span {
    lower: Set,
    upper: Set,
    ghost nested: { lower ⊆ upper },
}

impl Span {
    // The span of a pair of sets: up to the second, from the decisions of the first that the second has too.
    pub fn new(first: Set, second: Set) -> Span
        ensures lower { result.lower ≡ first ∩ second }
        ensures upper { result.upper ≡ second }
    {
        Span {
            lower: part(first, second),
            upper: second,
        }
    }

    pub fn lower(self) -> Set
        ensures { result ≡ self.lower }
    {
        self.lower
    }

    pub fn upper(self) -> Set
        ensures { result ≡ self.upper }
    {
        self.upper
    }

    // The part of the span inside a domain.
    pub fn cut(self, domain: Set) -> Span
        ensures lower { result.lower ≡ self.lower ∩ domain }
        ensures upper { result.upper ≡ self.upper ∩ domain }
    {
        Span {
            lower: part(self.lower, domain),
            upper: part(self.upper, domain),
        }
    }

    // Whether a set lies between the two.
    pub fn contains(self, set: Set) -> bool
        ensures { Decides result (Between self.lower self.upper set) }
    {
        is_subset(self.lower, set) && is_subset(set, self.upper)
    }
}
