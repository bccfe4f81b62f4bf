ghost use Rattle.std.specs.Prelude.{ℕ};
ghost use Rattle.rules.specs.Shapes.{way_of, rules_of};
ghost use Rattle.judge.specs.Reached.{GivenBy};

use crate::carrying::carried;
use crate::program::Program;
use banks::bank::Bank;
use sets::set::{Set, contains, with};
use sets::span::Span;

impl<B: Bank> Program<'_, B> {
    // One round: the lower set of the span with the heads of all rules whose entries are carried over it. A rule whose head is there already
    // is not looked at, and one is left at its first entry that is not carried.
    pub(crate) fn advance(&self, span: Span) -> Set
        ensures { (d : ℕ) → GivenBy (B.meaning self.now.bank.now) (way_of self.now.way) span.lower span.upper (rules_of self.now.rules.now) d result }
    {
        let mut out = span.lower();
        'rules: for rule in self.rules {
            let Some(d) = rule.head() else {
                continue 'rules;
            };
            if contains(out, d) {
                continue 'rules;
            }
            let body = rule.body();
            for e in body {
                if !carried(self.bank, self.way, *e, span) {
                    continue 'rules;
                }
            }
            out = with(out, d);
        }
        out
    }
}
