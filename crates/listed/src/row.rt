ghost use Rattle.std.specs.Prelude.{◌≡◌, ℕ, ◌-◌, ◌<◌, ◌≤◌, ◌⊎◌, true, List, ◌∷◌, length, get_or, Decides, nat_le};
ghost use Rattle.sets.specs.Lists.{member, Ascends};
ghost use Rattle.sets.specs.Sets.{Between};
ghost use Rattle.listed.specs.Tables.{AllIn, NoneIn};

use banks::tables::MAX_DOMAIN;
use sets::coming::Sets;
use sets::set::Set;
use sets::span::Span;

// Whether a set is not above the highest of a span, as numbers.
fn is_up_to(set: Set, span: Span) -> bool
    ensures { result ≡ nat_le set span.upper }
{
    set <= span.upper()
}

// An ascending row of sets.
#[derive(Clone, Copy)]
pub(crate) struct Ascending<'a> {
    sets: &'a [Set],
    ghost ascends: { Ascends sets.now },
}

impl<'a> Ascending<'a> {
    pub(crate) fn new(sets: &'a [Set]) -> Ascending<'a>
        requires { Ascends sets.now }
        ensures { result.sets.now ≡ sets.now }
    {
        Ascending { sets }
    }

    // How many sets at the front are to be searched for the first that is not below `lower`: twice as many each time, until the last of them
    // is not below it. So what stands near the front is found as fast as by going along the row. A row has at most 2 to the 12 sets.
    fn reach(&self, lower: Set) -> usize
        ensures { (result ≤ length self.now.sets.now)
            × ((result ≡ length self.now.sets.now) ⊎ ((1 ≤ result) × (lower ≤ get_or self.now.sets.now (result - 1) 0))) }
    {
        let mut last = 0usize;
        for _ in 0..MAX_DOMAIN {
            let Some(set) = self.sets.get(last) else {
                break;
            };
            if *set >= lower {
                return last + 1;
            }
            last = last.saturating_mul(2).saturating_add(1);
        }
        self.sets.len()
    }

    // The sets from `lower` on.
    fn from_lower(&self, lower: Set) -> Ascending<'a>
        ensures same { (f : ℕ) → lower ≤ f → member f result.sets.now ≡ member f self.now.sets.now }
        ensures from { (f : ℕ) → member f result.sets.now ≡ true → lower ≤ f }
    {
        let front = &self.sets[..self.reach(lower)];
        let from = front.partition_point(|set| *set < lower);
        Ascending {
            sets: &self.sets[from..],
        }
    }

    // Whether a set below `lower` stands first.
    fn starts_below(&self, lower: Set) -> bool
        ensures { Decides result ((0 < length self.now.sets.now) × (get_or self.now.sets.now 0 0 < lower)) }
    {
        self.sets.first().is_some_and(|first| *first < lower)
    }

    // The sets from the lowest of a span on: often the whole row.
    fn near(&self, span: Span) -> Ascending<'a>
        ensures same { (f : ℕ) → Between span.lower span.upper f → member f result.sets.now ≡ member f self.now.sets.now }
        ensures from { (f : ℕ) → member f result.sets.now ≡ true → span.lower ≤ f }
    {
        if self.starts_below(span.lower()) {
            self.from_lower(span.lower())
        } else {
            *self
        }
    }

    // Whether this set stands first.
    fn starts_with(&self, set: Set) -> bool
        ensures { Decides result ((rest : List ℕ) × (self.now.sets.now ≡ set ∷ rest)) }
    {
        self.sets.first().is_some_and(|first| *first == set)
    }

    // Whether those of the row's sets that are in the span are all of the span's.
    fn lists(&self, span: Span) -> bool
        ensures { Decides result (AllIn self.now.sets.now span.lower span.upper) }
    {
        let near = self.sets.iter().copied();
        near.take_while(|set| is_up_to(*set, span))
            .filter(|set| span.contains(*set))
            .eq(Sets::of(span))
    }

    // Whether every set of the span stands in the row. Where the lowest does not, or is the only one, no other is looked at.
    pub(crate) fn holds_all(&self, span: Span) -> bool
        ensures { Decides result (AllIn self.now.sets.now span.lower span.upper) }
    {
        let near = self.near(span);
        near.starts_with(span.lower()) && (span.lower() == span.upper() || near.lists(span))
    }

    // Whether no set of the span stands in the row.
    pub(crate) fn holds_none(&self, span: Span) -> bool
        ensures { Decides result (NoneIn self.now.sets.now span.lower span.upper) }
    {
        let near = self.near(span);
        let mut near = near
            .sets
            .iter()
            .copied()
            .take_while(|set| is_up_to(*set, span));
        !near.any(|set| span.contains(set))
    }
}
