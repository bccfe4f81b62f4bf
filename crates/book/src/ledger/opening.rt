ghost use Rattle.std.specs.Prelude.{◌≡◌};
ghost use Rattle.account.specs.Account.{blank};
ghost use Rattle.book.specs.View.{view};

use crate::ledger::Ledger;
use crate::page::Page;
use banks::bank::Bank;
use judge::ranks::Ranks;
use rows::row::Row;
use rules::rule::Rule;
use rules::way::Way;

// What stands in the places of pages that are not there.
fn no_page() -> Page {
    Page {
        way: Way::Reduct,
        set: 0,
        ranks: Ranks::none(),
        rules: 0,
    }
}

impl<B: Bank> Ledger<B> {
    // An empty ledger over a bank.
    pub(crate) fn open(bank: B) -> Ledger<B>
        ensures same { result.bank ≡ bank }
        ensures empty { view result ≡ blank }
    {
        Ledger {
            bank,
            rules: Row::new(Rule::empty()),
            pages: Row::new(no_page()),
        }
    }
}
