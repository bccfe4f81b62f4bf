use crate::gather::gather_sets;
use crate::next::next_set;
use judge::program::Program;
use listed::bank::ListedBank;
use listed::condition::ListedCondition;
use refusals::refusal::Refusal;
use rules::entry::Entry;
use rules::rule::Rule;
use rules::way::Way;
use sets::decision::Decision;
use sets::set::Set;
use std::process::Abort;
use std::test::Fail;

// Condition 0: decision 0. Condition 1: decision 1. Condition 2: both of 0 and 1, or neither.
const CONDITIONS: [ListedCondition; 3] = [
    ListedCondition {
        domain: 0b01,
        first: 0,
        len: 1,
    },
    ListedCondition {
        domain: 0b10,
        first: 1,
        len: 1,
    },
    ListedCondition {
        domain: 0b11,
        first: 2,
        len: 2,
    },
];

const SETS: [Set; 4] = [0b01, 0b10, 0b00, 0b11];

fn bank() -> ListedBank<'static> {
    let mut bank = ListedBank::new();
    let _ = bank.load(&CONDITIONS, &SETS);
    bank
}

fn not(condition: u16) -> Entry {
    Entry {
        condition,
        negated: true,
    }
}

// A rule for a decision, or with no head for a number that is no decision's.
fn rule(place: u8, body: &[Entry]) -> Option<Rule> {
    Rule::new(Decision::new(place), body)
}

fn program<'a>(
    bank: &'a ListedBank<'static>,
    way: Way,
    rules: &'a [Rule],
) -> Program<'a, ListedBank<'static>> {
    Program { bank, way, rules }
}

fn both(first: Option<Rule>, second: Option<Rule>) -> Option<[Rule; 2]> {
    Some([first?, second?])
}

fn check_found(
    rt: &impl Abort,
    answer: Result<(Set, usize), Refusal>,
    set: Set,
    tried: usize,
) -> Result<(), Fail> {
    let Ok((found, count)) = answer else {
        assert!(rt; false);
        return Ok(());
    };
    assert_eq!(rt; found, set);
    assert_eq!(rt; count, tried);
    Ok(())
}

fn check_refused(
    rt: &impl Abort,
    answer: Result<(Set, usize), Refusal>,
    number: u8,
    told: Option<usize>,
) -> Result<(), Fail> {
    let Err(e) = answer else {
        assert!(rt; false);
        return Ok(());
    };
    assert_eq!(rt; e.number(), number);
    assert_eq!(rt; e.told(), told);
    Ok(())
}

// Rules that give the decisions 0 to 16.
fn seventeen() -> Option<[Rule; 17]> {
    let mut rules = [rule(0, &[])?; 17];
    for (place, one) in (0..17u8).zip(&mut rules) {
        *one = rule(place, &[])?;
    }
    Some(rules)
}

#[test]
fn seventeen_heads_are_too_many(rt: HostRuntime) -> Result<(), Fail> {
    let bank = bank();
    let Some(rules) = seventeen() else {
        assert!(rt; false);
        return Ok(());
    };
    check_found(
        &rt,
        next_set(&program(&bank, Way::Reduct, &rules[0..16]), 0),
        65535,
        65536,
    )?;
    check_refused(
        &rt,
        next_set(&program(&bank, Way::Reduct, &rules), 0),
        27,
        None,
    )
}

#[test]
fn not_both_or_neither(rt: HostRuntime) -> Result<(), Fail> {
    let bank = bank();
    let Some(only) = rule(0, &[not(2)]) else {
        assert!(rt; false);
        return Ok(());
    };
    let rules = [only];
    check_refused(
        &rt,
        next_set(&program(&bank, Way::Complement, &rules), 1),
        28,
        Some(1),
    )?;
    check_found(&rt, next_set(&program(&bank, Way::Reduct, &rules), 1), 1, 1)
}

#[test]
fn a_rule_against_itself(rt: HostRuntime) -> Result<(), Fail> {
    let bank = bank();
    let Some(only) = rule(0, &[not(0)]) else {
        assert!(rt; false);
        return Ok(());
    };
    let rules = [only];
    check_refused(
        &rt,
        next_set(&program(&bank, Way::Reduct, &rules), 0),
        28,
        Some(2),
    )?;
    check_refused(
        &rt,
        next_set(&program(&bank, Way::Reduct, &rules), 2),
        28,
        Some(0),
    )
}

#[test]
fn the_highest_decision_and_the_highest_start(rt: HostRuntime) -> Result<(), Fail> {
    let bank = bank();
    let Some(rules) = both(rule(63, &[]), rule(0, &[])) else {
        assert!(rt; false);
        return Ok(());
    };
    let full: Set = 0x8000_0000_0000_0001;
    check_found(
        &rt,
        next_set(&program(&bank, Way::Complement, &rules), 0),
        full,
        4,
    )?;
    check_found(
        &rt,
        next_set(&program(&bank, Way::Complement, &rules), 2),
        full,
        2,
    )?;
    check_found(
        &rt,
        next_set(&program(&bank, Way::Complement, &rules), full),
        full,
        1,
    )?;
    check_refused(
        &rt,
        next_set(&program(&bank, Way::Complement, &rules), u64::MAX),
        28,
        Some(0),
    )
}

#[test]
fn two_sets_are_gathered(rt: HostRuntime) -> Result<(), Fail> {
    let bank = bank();
    let Some(rules) = both(rule(0, &[not(1)]), rule(1, &[not(0)])) else {
        assert!(rt; false);
        return Ok(());
    };
    let mut places = [7; 3];
    let Ok(all) = gather_sets(&program(&bank, Way::Reduct, &rules), 0, &mut places) else {
        assert!(rt; false);
        return Ok(());
    };
    assert_eq!(rt; all.placed, 2);
    assert_eq!(rt; all.unplaced, None);
    assert!(rt; places == [1, 2, 7]);
    let Ok(some) = gather_sets(&program(&bank, Way::Reduct, &rules), 0, &mut places[0..1]) else {
        assert!(rt; false);
        return Ok(());
    };
    assert_eq!(rt; some.placed, 1);
    assert_eq!(rt; some.unplaced, Some(2));
    Ok(())
}
