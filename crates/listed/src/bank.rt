ghost use Rattle.std.specs.Prelude.{◌≡◌, [], MatchResult};
ghost use Rattle.banks.specs.Meaning.{no_conditions};
ghost use Rattle.banks.specs.Tables.{Few};
ghost use Rattle.refusals.specs.Numbers.{Says};
ghost use Rattle.listed.specs.Tables.{Valid, Narrow, Placed, Ordered, Contained, row, condition, listed};
ghost use Rattle.listed.specs.Lawful.{listed_lawful};

use crate::condition::ListedCondition;
use crate::row::Ascending;
use crate::tables::{row_of, valid};
use banks::bank::Bank;
use refusals::refusal::Refusal;
use sets::set::Set;
use sets::span::Span;

// A bank over tables that were found valid; they stay the caller's.
#[derive(Clone, Copy)]
pub struct ListedBank<'a> {
    conditions: &'a [ListedCondition],
    sets: &'a [Set],
    ghost few: { Few conditions.now },
    ghost narrow: { Narrow conditions.now },
    ghost placed: { Placed conditions.now sets.now },
    ghost ordered: { Ordered conditions.now sets.now },
    ghost contained: { Contained conditions.now sets.now },
}

impl<'a> ListedBank<'a> {
    // A bank with no conditions.
    pub fn new() -> ListedBank<'a>
        ensures { listed result.conditions.now result.sets.now ≡ no_conditions }
    {
        ListedBank {
            conditions: &[],
            sets: &[],
        }
    }

    // Takes the tables if they are valid; else refuses them, and the bank has no conditions.
    pub fn load(
        &mut self,
        conditions: &'a [ListedCondition],
        sets: &'a [Set],
    ) -> Result<(), Refusal>
        ensures { MatchResult result
            (λ _. Valid conditions.now sets.now
            × (listed self.new.conditions.now self.new.sets.now ≡ listed conditions.now sets.now))
            (λ e. (Valid conditions.now sets.now → ⊥)
            × Says e 17 []
            × (listed self.new.conditions.now self.new.sets.now ≡ no_conditions)) }
    {
        if !valid(conditions, sets) {
            *self = ListedBank::new();
            return Err(Refusal::BadTables);
        }
        *self = ListedBank { conditions, sets };
        Ok(())
    }
}

impl ListedBank<'_> {
    // Condition k; the empty family of the empty domain where the table has no such number.
    fn at(&self, k: u16) -> ListedCondition
        ensures { result ≡ condition self.now.conditions.now k }
    {
        self.conditions.get(k as usize).copied().unwrap_or_default()
    }

    // The sets of condition k.
    fn row_of(&self, k: u16) -> Ascending<'_>
        ensures { result.sets.now ≡ row (condition self.now.conditions.now k) self.now.sets.now }
    {
        Ascending::new(row_of(&self.at(k), self.sets))
    }
}

impl Bank for ListedBank<'_> {
    ghost meaning = { λ b. listed b.conditions.now b.sets.now };

    fn count(&self) -> u16 {
        self.conditions.len() as u16
    }

    fn domain(&self, k: u16) -> Set {
        self.at(k).domain
    }

    fn always(&self, k: u16, span: Span) -> bool {
        self.row_of(k).holds_all(span.cut(self.domain(k)))
    }

    fn never(&self, k: u16, span: Span) -> bool {
        self.row_of(k).holds_none(span.cut(self.domain(k)))
    }

    ghost lawful = { λ b. listed_lawful b.conditions.now b.sets.now b.few b.narrow b.contained };
}
