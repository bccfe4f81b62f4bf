ghost use Rattle.std.specs.Prelude.{◌<◌, ◌≤◌, MatchOption};
ghost use Rattle.banks.specs.Beside.{beside, beside_lawful};
ghost use Rattle.banks.specs.Places.{IsPlace};

use crate::bank::Bank;
use sets::set::Set;
use sets::span::Span;

// The most conditions that any bank may have.
const MAX_COUNT: u16 = 32767;

// Where a condition of a pair stands: in its first bank or in its second, under its number there.
#[derive(Clone, Copy)]
enum Place {
    First(u16),
    Second(u16),
}

// Where condition k stands, if the first bank has `count` conditions; nowhere from the greatest count on.
fn place_of(count: u16, k: u16) -> Option<Place>
    ensures { MatchOption result (32767 ≤ k) (λ p. (k < 32767) × IsPlace count k p) }
{
    if k >= MAX_COUNT {
        None
    } else if k < count {
        Some(Place::First(k))
    } else {
        Some(Place::Second(k - count))
    }
}

// A pair of banks as one: conditions of the second are numbered after those of the first.
#[derive(Drop)]
pub struct PairBank<A: Bank, B: Bank> {
    pub first: A,
    pub second: B,
}

impl<A: Bank, B: Bank> Bank for PairBank<A, B> {
    ghost meaning = { λ p. beside (A.Bank.meaning p.first) (B.Bank.meaning p.second) };

    fn count(&self) -> u16 {
        (self.first.count() + self.second.count()).min(MAX_COUNT)
    }

    fn domain(&self, k: u16) -> Set {
        match place_of(self.first.count(), k) {
            None => 0,
            Some(Place::First(j)) => self.first.domain(j),
            Some(Place::Second(j)) => self.second.domain(j),
        }
    }

    fn always(&self, k: u16, span: Span) -> bool {
        match place_of(self.first.count(), k) {
            None => false,
            Some(Place::First(j)) => self.first.always(j, span),
            Some(Place::Second(j)) => self.second.always(j, span),
        }
    }

    fn never(&self, k: u16, span: Span) -> bool {
        match place_of(self.first.count(), k) {
            None => true,
            Some(Place::First(j)) => self.first.never(j, span),
            Some(Place::Second(j)) => self.second.never(j, span),
        }
    }

    ghost lawful = { λ p. beside_lawful (A.Bank.meaning p.first) (B.Bank.meaning p.second) (A.Bank.lawful p.first) (B.Bank.lawful p.second) };
}
