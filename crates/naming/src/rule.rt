ghost use Rattle.std.specs.Prelude.{◌≡◌, ◌<◌, ◌≤◌, [], map, length, MatchBool, MatchOption, MatchResult};
ghost use Rattle.std.specs.List.{AllByRecursion};
ghost use Rattle.answer_sets.specs.Rules.{Any};
ghost use Rattle.refusals.specs.Numbers.{number, told, Says};
ghost use Rattle.rows.specs.Rows.{held};
ghost use Rattle.rules.specs.Shapes.{entry_of, rule_of};
ghost use Rattle.answer_sets.specs.Naming.{entry_named, Known, Unknown, rule_named};
ghost use Rattle.account.specs.Account.{Account, enter, FitsFirst};
ghost use Rattle.naming.specs.Sound.{Sound};

use crate::head::head_named;
use banks::bank::Bank;
use refusals::refusal::Refusal;
use rows::row::Row;
use rules::entry::Entry;
use rules::head::Head;
use rules::rule::{BLANK, Body, Rule};

// Whether an entry's condition is one of the bank's.
fn is_known<B: Bank>(bank: &B, number: u16) -> bool
    ensures { MatchBool result (Known (B.meaning bank.now) number) (Unknown (B.meaning bank.now) number) }
{
    Entry::from(number).condition < bank.count()
}

// Whether each entry's condition is one of the bank's.
fn all_known<B: Bank>(bank: &B, body: &[u16]) -> bool
    ensures { MatchBool result
        (AllByRecursion (Known (B.meaning bank.now)) body.now)
        (Any (Unknown (B.meaning bank.now)) body.now) }
{
    body.iter().all(|number| is_known(bank, *number))
}

// The entries that the numbers of a body name, if there are not too many.
fn entries_named(body: &[u16]) -> Option<Body>
    ensures { MatchOption result (8 < length body.now) (λ row. map entry_of (held row) ≡ map entry_named body.now) }
{
    let mut entries = Row::new(BLANK);
    for number in body {
        entries.push(Entry::from(*number)).ok()?;
    }
    Some(entries)
}

// The rule with this head whose entries the numbers name.
fn rule_with(head: Head, body: &[u16]) -> Result<Rule, Refusal>
    ensures { MatchResult result
        (λ x. (length body.now ≤ 8) × (x.head ≡ head) × (map entry_of (held x.body) ≡ map entry_named body.now))
        (λ e. Says e 12 [] × (8 < length body.now)) }
{
    let entries = entries_named(body).ok_or(Refusal::LongBody)?;
    Ok(Rule::of(head, entries))
}

// The rule that a head's number and the numbers of a body name, over a bank. What is refused here, enter refuses on every book.
pub fn rule_named<B: Bank>(bank: &B, head: u8, body: &[u16]) -> Result<Rule, Refusal>
    ensures { MatchResult result
        (λ x. Sound (B.meaning bank.now) head body.now × (rule_of x ≡ rule_named head body.now))
        (λ e. (a : Account) → FitsFirst (B.meaning bank.now) a (enter head body.now) (number e) (told e)) }
{
    let head = head_named(head)?;
    let rule = rule_with(head, body)?;
    if !all_known(bank, body) {
        return Err(Refusal::NoCondition);
    }
    Ok(rule)
}
