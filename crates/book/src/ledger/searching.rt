ghost use Rattle.std.specs.Prelude.{◌≡◌, [], MatchResult};
ghost use Rattle.refusals.specs.Numbers.{number, Says};
ghost use Rattle.rules.specs.Shapes.{way_of};
ghost use Rattle.search.specs.Gathering.{Gathers};
ghost use Rattle.search.specs.Search.{Found, Refused, HasManyHeads, LowestAnswer, NoAnswer};
ghost use Rattle.book.specs.View.{view};

use crate::ledger::Ledger;
use banks::bank::Bank;
use refusals::refusal::Refusal;
use rows::listing::Listing;
use rules::way::Way;
use search::gather::gather_sets;
use search::next::next_set;
use sets::set::Set;

impl<B: Bank> Ledger<B> {
    pub(crate) fn next(&self, way: Way, start: Set) -> Result<(Set, usize), Refusal>
        ensures found { MatchResult result
            (λ p. Found (B.meaning self.now.bank) (way_of way) (view self.now).rules start p.0 p.1)
            (λ e. Refused (B.meaning self.now.bank) (way_of way) (view self.now).rules start e) }
        ensures published { MatchResult result
            (λ p. LowestAnswer (B.meaning self.now.bank) (way_of way) (view self.now).rules start p.0)
            (λ e. number e ≡ 28 → NoAnswer (B.meaning self.now.bank) (way_of way) (view self.now).rules start) }
    {
        next_set(&self.program(way), start)
    }

    pub(crate) fn gather(
        &self,
        way: Way,
        start: Set,
        places: &mut [Set],
    ) -> Result<Listing<Set>, Refusal>
        ensures { MatchResult result
            (λ listing. Gathers (B.meaning self.now.bank) (way_of way) (view self.now).rules start places.old listing places.new)
            (λ e. Says e 27 [] × HasManyHeads (view self.now).rules × (places.new ≡ places.old)) }
    {
        gather_sets(&self.program(way), start, places)
    }
}
