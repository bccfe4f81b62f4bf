ghost use Rattle.std.specs.Prelude.{◌≡◌};
ghost use Rattle.rows.specs.Rows.{held};

use crate::ledger::Ledger;
use crate::limits::{MAX_PAGES, MAX_RULES};
use crate::page::Page;
use banks::bank::Bank;
use judge::program::Program;
use rows::row::Row;
use rules::rule::Rule;
use rules::way::Way;

impl<B: Bank> Ledger<B> {
    // How many conditions the bank has.
    pub fn count(&self) -> u16
        ensures { result ≡ (B.meaning self.now.bank).count }
    {
        self.bank.count()
    }

    // The rules over the bank, with "not" read by this way.
    pub(crate) fn program(&self, way: Way) -> Program<'_, B>
        ensures bank { result.bank.now ≡ self.now.bank }
        ensures way { result.way ≡ way }
        ensures rules { result.rules.now ≡ held self.now.rules }
    {
        Program {
            bank: &self.bank,
            way,
            rules: self.rules.as_slice(),
        }
    }

    pub fn rules(&self) -> &Row<Rule, MAX_RULES>
        ensures { result.now ≡ self.now.rules }
    {
        &self.rules
    }

    pub fn pages(&self) -> &Row<Page, MAX_PAGES>
        ensures { result.now ≡ self.now.pages }
    {
        &self.pages
    }
}
