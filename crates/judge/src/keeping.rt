ghost use Rattle.std.specs.Prelude.{◌≡◌, ℕ, ◌<◌, true, map, length, Decides, MatchOption};
ghost use Rattle.std.specs.List.{HoldsAt, AllByRecursion};
ghost use Rattle.answer_sets.specs.Rules.{meets, holds, HeadIn, Keeps, LowestBroken};
ghost use Rattle.rules.specs.Shapes.{entry_of, head_of, rule_of, rules_of};

use banks::bank::Bank;
use rules::entry::Entry;
use rules::head::Head;
use rules::rule::Rule;
use sets::set::{Set, contains};
use sets::span::Span;

// Whether a condition holds at one set.
pub(crate) fn meets_at<B: Bank>(bank: &B, k: u16, set: Set) -> bool
    ensures { result ≡ meets (B.meaning bank.now) k set }
{
    bank.always(k, Span::new(set, set))
}

// Bank, rules and set stay parameters below: no way is asked, and a value of bank and rules alone would be no plainer than a program.

// Whether an entry holds at a set.
pub fn holds_at<B: Bank>(bank: &B, e: Entry, set: Set) -> bool
    ensures { result ≡ holds (B.meaning bank.now) (entry_of e) set }
{
    let met = meets_at(bank, e.condition, set);
    if e.negated { !met } else { met }
}

// Whether every entry of a body holds at a set.
fn body_holds<B: Bank>(bank: &B, body: &[Entry], set: Set) -> bool
    ensures { Decides result (AllByRecursion (λ e. holds (B.meaning bank.now) e set ≡ true) (map entry_of body.now)) }
{
    body.iter().all(|e| holds_at(bank, *e, set))
}

// Whether some entry of a body fails at a set.
fn body_fails<B: Bank>(bank: &B, body: &[Entry], set: Set) -> bool
    ensures { Decides result (AllByRecursion (λ e. holds (B.meaning bank.now) e set ≡ true) (map entry_of body.now) → ⊥) }
{
    !body_holds(bank, body, set)
}

// Whether the head is in a set; no head is in none.
fn head_in(head: Head, set: Set) -> bool
    ensures { Decides result (HeadIn (head_of head) set) }
{
    head.is_some_and(|d| contains(set, d))
}

// Whether a set keeps a rule.
pub fn keeps<B: Bank>(bank: &B, rule: &Rule, set: Set) -> bool
    ensures { Decides result (Keeps (B.meaning bank.now) set (rule_of rule.now)) }
{
    head_in(rule.head(), set) || body_fails(bank, rule.body(), set)
}

// The lowest rule that a set breaks, if it breaks one.
pub fn lowest_broken<B: Bank>(bank: &B, rules: &[Rule], set: Set) -> Option<usize>
    ensures lowest { MatchOption result
        (AllByRecursion (Keeps (B.meaning bank.now) set) (rules_of rules.now))
        (LowestBroken (B.meaning bank.now) (rules_of rules.now) set) }
    ensures broken { MatchOption result
        (AllByRecursion (Keeps (B.meaning bank.now) set) (rules_of rules.now))
        (λ i. (i < length rules.now)
        × HoldsAt (λ x. Keeps (B.meaning bank.now) set (rule_of x) → ⊥) rules.now i
        × ((j : ℕ) → j < i → HoldsAt (λ x. Keeps (B.meaning bank.now) set (rule_of x)) rules.now j)) }
{
    rules.iter().position(|rule| !keeps(bank, rule, set))
}

// Whether a set keeps every rule.
pub fn keeps_all<B: Bank>(bank: &B, rules: &[Rule], set: Set) -> bool
    ensures { Decides result (AllByRecursion (Keeps (B.meaning bank.now) set) (rules_of rules.now)) }
{
    rules.iter().all(|rule| keeps(bank, rule, set))
}
