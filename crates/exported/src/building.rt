ghost use Rattle.std.specs.Prelude.{◌≡◌, ◌<◌, [], ◌∷◌, ◌++◌, length, MatchResult, ◌≢◌};
ghost use Rattle.refusals.specs.Numbers.{number, Says};
ghost use Rattle.rules.specs.Shapes.{way_of, rule_of, rules_of};
ghost use Rattle.rows.specs.Rows.{held};
ghost use Rattle.exported.specs.Numbered.{line, table, way_numbered, rule_numbered, rules_numbered};

use crate::numbers::{ConditionNumbers, RuleNumbers};
use banks::bank::Bank;
use listed::condition::ListedCondition;
use naming::rule::rule_named;
use refusals::refusal::Refusal;
use rows::row::Row;
use rules::rule::{MAX_BODY, Rule};
use rules::way::Way;

// The way of a number: the interface for C counts the ways from 0, so it is not the byte of a text.
pub(crate) fn way_named(way: u8) -> Result<Way, Refusal>
    ensures { MatchResult result (λ w. way_of w ≡ way_numbered way) (λ e. Says e 14 []) }
{
    match way {
        0 => Ok(Way::Reduct),
        1 => Ok(Way::Complement),
        _ => Err(Refusal::NoWay),
    }
}

// Puts one item more at the end of a list; where the list is full, this refusal.
fn keep<T: Copy, const N: usize>(list: &mut Row<T, N>, x: T, full: Refusal) -> Result<(), Refusal>
    ensures { MatchResult result
        (λ _. (length (held list.old) < N) × (held list.new ≡ held list.old ++ x ∷ []))
        (λ e. (length (held list.old) ≡ N) × (e ≡ full) × (held list.new ≡ held list.old)) }
{
    list.push(x).map_err(|_| full)
}

// The table of conditions, unless there are more than a table may have.
pub(crate) fn table_of(
    conditions: &[ConditionNumbers],
) -> Result<Row<ListedCondition, 256>, Refusal>
    ensures { MatchResult result (λ t. held t ≡ table conditions.now) (λ e. Says e 17 []) }
{
    let mut lines = Row::new(ListedCondition::default());
    for c in conditions {
        keep(&mut lines, ListedCondition::from(c), Refusal::BadTables)?;
    }
    Ok(lines)
}

// How many entries the body of these numbers has.
fn entries_of(numbers: &RuleNumbers) -> usize
    ensures { result ≡ numbers.now.len }
{
    numbers.len as usize
}

// The rule of these numbers, over a bank.
fn rule_of<B: Bank>(bank: &B, numbers: &RuleNumbers) -> Result<Rule, Refusal>
    ensures { MatchResult result (λ x. rule_of x ≡ rule_numbered numbers.now) (λ e. number e ≢ 28) }
{
    let len = entries_of(numbers);
    if len > MAX_BODY {
        return Err(Refusal::LongBody);
    }
    rule_named(bank, numbers.head, &numbers.body[0..len])
}

// The rules of these numbers, unless there are more than a book may have.
pub(crate) fn rules_of<B: Bank>(
    bank: &B,
    numbers: &[RuleNumbers],
) -> Result<Row<Rule, 128>, Refusal>
    ensures { MatchResult result (λ rules. rules_of (held rules) ≡ rules_numbered numbers.now) (λ e. number e ≢ 28) }
{
    let mut rules = Row::new(Rule::empty());
    for n in numbers {
        let rule = rule_of(bank, n)?;
        keep(&mut rules, rule, Refusal::RulesFull)?;
    }
    Ok(rules)
}
