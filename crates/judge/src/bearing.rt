ghost use Rattle.std.specs.Prelude.{◌≡◌, ℕ, ◌≤◌, Decides};
ghost use Rattle.sets.specs.Sets.{◌∈◌, ◌∉◌};
ghost use Rattle.answer_sets.specs.Rules.{Any, Gives, Ranked, Bears, below};
ghost use Rattle.rules.specs.Shapes.{way_of, rule_of, rules_of};

use crate::carrying::all_carried;
use crate::keeping::keeps_all;
use crate::program::Program;
use crate::ranks::Ranks;
use banks::bank::Bank;
use rules::rule::Rule;
use sets::decision::Decision;
use sets::decisions::Decisions;
use sets::set::{Set, contains_place};
use sets::span::Span;

// Whether a decision, by its number, has a rank that is not zero exactly where the set has it.
fn fits(set: Set, d: u8, rank: u8) -> bool
    ensures { Decides result ((d ∉ set → rank ≡ 0) × (d ∈ set → (1 ≤ rank) × (rank ≤ 255))) }
{
    contains_place(set, d) == (rank != 0)
}

// Whether the ranks are 64 bytes, zero outside the set and not zero inside it.
pub fn ranked(ranks: &[u8], set: Set) -> bool
    ensures { Decides result (Ranked set ranks.now) }
{
    ranks.len() == 64 && (0..64u8).zip(ranks).all(|(d, rank)| fits(set, d, *rank))
}

impl<B: Bank> Program<'_, B> {
    // Whether the rule gives decision b over the span.
    fn gives(&self, rule: &Rule, span: Span, b: Decision) -> bool
        ensures { Decides result (Gives (B.meaning self.now.bank.now) (way_of self.now.way) span.lower span.upper b.place (rule_of rule.now)) }
    {
        let Some(d) = rule.head() else {
            return false;
        };
        d.place() == b.place() && all_carried(self.bank, self.way, rule.body(), span)
    }

    // Whether some rule gives decision b over the span.
    fn given(&self, span: Span, b: Decision) -> bool
        ensures { Decides result (Any (Gives (B.meaning self.now.bank.now) (way_of self.now.way) span.lower span.upper b.place) (rules_of self.now.rules.now)) }
    {
        self.rules.iter().any(|rule| self.gives(rule, span, b))
    }

    // Whether some rule gives b over the span from the lower-ranked decisions to the set.
    fn backed(&self, set: Set, ranks: &Ranks, b: Decision) -> bool
        ensures { Decides result (Any (Gives (B.meaning self.now.bank.now) (way_of self.now.way) (below set ranks.now.bytes b.place) set b.place) (rules_of self.now.rules.now)) }
    {
        self.given(Span::new(ranks.lower(set, b), set), b)
    }

    // Whether some rule gives each decision of the set over the span from its lower-ranked ones.
    fn supported(&self, set: Set, ranks: &Ranks) -> bool
        ensures { Decides result
            ((b : ℕ) → b ∈ set
            → Any (Gives (B.meaning self.now.bank.now) (way_of self.now.way) (below set ranks.now.bytes b) set b) (rules_of self.now.rules.now)) }
    {
        Decisions::of(set).all(|b| self.backed(set, ranks, b))
    }

    // Whether the ranks bear the set.
    pub fn bears(&self, set: Set, ranks: &[u8]) -> bool
        ensures { Decides result (Bears (B.meaning self.now.bank.now) (way_of self.now.way) (rules_of self.now.rules.now) set ranks.now) }
    {
        if !ranked(ranks, set) {
            return false;
        }
        let Ok(ranks) = Ranks::try_from(ranks) else {
            return false;
        };
        keeps_all(self.bank, self.rules, set) && self.supported(set, &ranks)
    }
}
