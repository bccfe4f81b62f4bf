ghost use Rattle.std.specs.Prelude.{◌≡◌, ◌<◌, length, Decides, MatchResult};
ghost use Rattle.rows.specs.Rows.{held};
ghost use Rattle.rules.specs.Shapes.{rule_of};
ghost use Rattle.account.specs.Account.{enter, Step};
ghost use Rattle.account.specs.Limits.{max_rules};
ghost use Rattle.book.specs.Ready.{Accepts, Refuses, RulesWith};
ghost use Rattle.book.specs.View.{view, answer_of};

use crate::ledger::Ledger;
use crate::limits::MAX_RULES;
use banks::bank::Bank;
use naming::rule::rule_named;
use refusals::refusal::Refusal;
use rules::rule::Rule;

impl<B: Bank> Ledger<B> {
    // Whether there is a place for a rule.
    fn has_free_rule(&self) -> bool
        ensures { Decides result (length (held self.now.rules) < max_rules) }
    {
        self.rules.len() < MAX_RULES
    }

    // The rule to be entered, or why it may not be.
    fn enterable(&self, head: u8, body: &[u16]) -> Result<Rule, Refusal>
        ensures { MatchResult result
            (λ x. (length (held self.now.rules) < max_rules)
            × Accepts (B.meaning self.now.bank) (view self.now) (enter head body.now) (length (view self.now).rules)
            (RulesWith (view self.now) (rule_of x)))
            (Refuses (B.meaning self.now.bank) (view self.now) (enter head body.now)) }
    {
        let rule = rule_named(&self.bank, head, body)?;
        if !self.has_free_rule() {
            return Err(Refusal::RulesFull);
        }
        Ok(rule)
    }

    // Puts a rule last, and answers its number.
    fn add_rule(&mut self, rule: Rule) -> usize
        requires { length (held self.old.rules) < max_rules }
        ensures number { result ≡ length (view self.old).rules }
        ensures after { RulesWith (view self.old) (rule_of rule) (view self.new) }
        ensures same { self.new.bank ≡ self.old.bank }
    {
        let at = self.rules.len();
        let _ = self.rules.push(rule);
        at
    }

    pub(crate) fn enter(&mut self, head: u8, body: &[u16]) -> Result<usize, Refusal>
        ensures step { Step (B.meaning self.old.bank) (view self.old) (enter head body.now) (answer_of result) (view self.new) }
        ensures same { self.new.bank ≡ self.old.bank }
    {
        let rule = self.enterable(head, body)?;
        Ok(self.add_rule(rule))
    }
}
