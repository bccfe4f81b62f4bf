ghost use Rattle.std.specs.Prelude.{◌≡◌, ℕ, ◌≤◌, [], length, Decides, MatchOption, MatchResult, slice_get};
ghost use Rattle.std.proofs.Props.{props};
ghost use Rattle.banks.specs.Meaning.{no_conditions, Always, Never};
ghost use Rattle.refusals.specs.Numbers.{Says};
ghost use Rattle.measures.specs.Scales.{laid};
ghost use Rattle.sets.specs.Sets.{◌∩◌, Between};
ghost use Rattle.sets.specs.Walks.{decisions};
ghost use Rattle.weighed.specs.Lawful.{valid_lawful};
ghost use Rattle.weighed.specs.Tables.{Valid, pick, weighed};
ghost use Rattle.weighed.specs.Totals.{chosen, within};

use crate::condition::WeighedCondition;
use crate::tables::valid;
use crate::weighing::Weighing;
use banks::bank::Bank;
use measures::measure::Measure;
use refusals::refusal::Refusal;
use sets::set::Set;
use sets::span::Span;

// A bank over valid tables; they stay the caller's.
#[derive(Drop)]
pub struct WeighedBank<'a, M: Measure> {
    conditions: &'a [WeighedCondition<M::Raw>],
    weights: &'a [M::Raw],
    ghost valid: { Valid M.scale conditions.now weights.now } by { Prim.hlevel props },
}

impl<'a, M: Measure> WeighedBank<'a, M> {
    // A bank with no conditions.
    pub fn new() -> WeighedBank<'a, M>
        ensures { weighed M.scale result.conditions.now result.weights.now ≡ no_conditions }
    {
        WeighedBank {
            conditions: &[],
            weights: &[],
        }
    }

    // Takes the tables if they are valid; else refuses them, and the bank has no conditions.
    pub fn load(
        &mut self,
        conditions: &'a [WeighedCondition<M::Raw>],
        weights: &'a [M::Raw],
    ) -> Result<(), Refusal>
        ensures { MatchResult result
            (λ _. Valid M.scale conditions.now weights.now
            × (weighed M.scale self.new.conditions.now self.new.weights.now ≡ weighed M.scale conditions.now weights.now))
            (λ e. (Valid M.scale conditions.now weights.now → ⊥)
            × Says e 17 []
            × (weighed M.scale self.new.conditions.now self.new.weights.now ≡ no_conditions)) }
    {
        if !valid::<M>(conditions, weights) {
            *self = WeighedBank::new();
            return Err(Refusal::BadTables);
        }
        *self = WeighedBank {
            conditions,
            weights,
        };
        Ok(())
    }
}

impl<M: Measure> WeighedBank<'_, M> {
    // Condition k, if there is one.
    fn at(&self, k: u16) -> Option<WeighedCondition<M::Raw>>
        ensures { result ≡ slice_get self.now.conditions.now k }
    {
        self.conditions.get(k as usize).copied()
    }

    fn domain_at(&self, k: u16) -> Set
        ensures { result ≡ pick self.now.conditions.now k (λ c. c.domain) 0 }
    {
        self.at(k).map_or(0, |c| c.domain)
    }

    // What condition k, if there is one, is asked over a span: the sets of the span, inside the domain, that are in its family are those
    // that bring the total between the bounds.
    fn weighing(&self, k: u16, span: Span) -> Option<Weighing<'_, M>>
        ensures { let m = weighed M.scale self.now.conditions.now self.now.weights.now in MatchOption result (m.count ≤ k)
            (λ g. (g.span.lower ≡ span.lower ∩ m.domain k) × (g.span.upper ≡ span.upper ∩ m.domain k)
            × ((f : ℕ) → Between g.span.lower g.span.upper f
            → m.family k f ≡ within M.scale g.low g.high (laid M.scale M.scale.nothing (chosen (decisions g.domain) g.row.now f)))) }
    {
        let c = self.at(k)?;
        Some(Weighing::new(&c, self.weights, span))
    }

    fn always_at(&self, k: u16, span: Span) -> bool
        ensures { Decides result (Always (weighed M.scale self.now.conditions.now self.now.weights.now) k span.lower span.upper) }
    {
        self.weighing(k, span).is_some_and(|g| g.hits())
    }

    fn never_at(&self, k: u16, span: Span) -> bool
        ensures { Decides result (Never (weighed M.scale self.now.conditions.now self.now.weights.now) k span.lower span.upper) }
    {
        self.weighing(k, span).is_none_or(|g| g.misses())
    }
}

impl<M: Measure> Bank for WeighedBank<'_, M> {
    ghost meaning = { λ b. weighed M.Measure.scale b.conditions.now b.weights.now };

    fn count(&self) -> u16 {
        self.conditions.len() as u16
    }

    fn domain(&self, k: u16) -> Set {
        self.domain_at(k)
    }

    fn always(&self, k: u16, span: Span) -> bool {
        self.always_at(k, span)
    }

    fn never(&self, k: u16, span: Span) -> bool {
        self.never_at(k, span)
    }

    ghost lawful = { λ b. valid_lawful M.Measure.scale b.conditions.now b.weights.now b.valid };
}
