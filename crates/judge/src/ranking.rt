ghost use Rattle.std.specs.Prelude.{◌≡◌, ℕ, ◌^◌, ◌<◌, Decides, MatchOption, slice_index};
ghost use Rattle.std.specs.List.{AllByRecursion};
ghost use Rattle.sets.specs.Sets.{◌∈◌, ◌∉◌};
ghost use Rattle.answer_sets.specs.Rounds.{Rounds};
ghost use Rattle.answer_sets.specs.Published.{AnswerSetBy, program};
ghost use Rattle.answer_sets.specs.Rules.{Keeps, Borne, complement};
ghost use Rattle.answer_sets.specs.Tests.{derives};
ghost use Rattle.rules.specs.Shapes.{way_of, rules_of};
ghost use Rattle.judge.specs.Reached.{Stamped};

use crate::keeping::keeps_all;
use crate::program::Program;
use crate::ranks::Ranks;
use banks::bank::Bank;
use sets::set::Set;
use sets::span::Span;

impl<B: Bank> Program<'_, B> {
    // The rank of each decision: the first round that has it, or 0. The rounds end when they have reached the set, or when one adds nothing; so
    // there are no more of them than the set has decisions.
    fn first_rounds(&self, set: Set) -> Ranks
        requires { AllByRecursion (Keeps (B.meaning self.now.bank.now) set) (rules_of self.now.rules.now) }
        ensures { (d : ℕ) → d < 64
            → Stamped (derives (B.meaning self.now.bank.now) (way_of self.now.way) (rules_of self.now.rules.now) set) 64 d (slice_index result.bytes d) }
    {
        let mut ranks = Ranks::none();
        let mut reached = 0;
        // over the numbers of the rounds, which stand in no list
        for round in 1..=64u8 {
            if reached == set {
                return ranks;
            }
            let next = self.advance(Span::new(reached, set));
            if next == reached {
                return ranks;
            }
            ranks.stamp(next, round);
            reached = next;
        }
        ranks
    }

    // The ranks of the rounds where some ranks bear the set, and none where none do.
    fn find_ranks(&self, set: Set) -> Option<Ranks>
        ensures { MatchOption result
            (Borne (B.meaning self.now.bank.now) (way_of self.now.way) (rules_of self.now.rules.now) set → ⊥)
            (λ ranks. Rounds (B.meaning self.now.bank.now) (way_of self.now.way) (rules_of self.now.rules.now) set ranks.bytes) }
    {
        if !keeps_all(self.bank, self.rules, set) {
            return None;
        }
        let ranks = self.first_rounds(set);
        if !ranks.covers(set) {
            return None;
        }
        Some(ranks)
    }

    // The same in public: ranks come exactly where the set is an answer set by that way, they are the rounds, and by complement every other
    // set that keeps the rules has a decision that this one lacks.
    pub fn rank_set(&self, set: Set) -> Option<Ranks>
        ensures rounds { MatchOption result
            (Borne (B.meaning self.now.bank.now) (way_of self.now.way) (rules_of self.now.rules.now) set → ⊥)
            (λ ranks. Rounds (B.meaning self.now.bank.now) (way_of self.now.way) (rules_of self.now.rules.now) set ranks.bytes) }
        ensures published { MatchOption result
            (AnswerSetBy (way_of self.now.way) (program (B.meaning self.now.bank.now) (rules_of self.now.rules.now)) set → ⊥)
            (λ _. AnswerSetBy (way_of self.now.way) (program (B.meaning self.now.bank.now) (rules_of self.now.rules.now)) set) }
        ensures minimal { MatchOption result (Unit {0})
            (λ _. way_of self.now.way ≡ complement → (n : ℕ) → n < 2 ^ 64
            → AllByRecursion (Keeps (B.meaning self.now.bank.now) n) (rules_of self.now.rules.now)
            → (n ≡ set → ⊥) → (d : ℕ) × (d ∈ n) × (d ∉ set)) }
    {
        self.find_ranks(set)
    }
}
