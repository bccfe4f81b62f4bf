use crate::keeping::{keeps_all, lowest_broken};
use crate::program::Program;
use crate::ranks::Ranks;
use banks::bank::Bank;
use listed::bank::ListedBank;
use listed::condition::ListedCondition;
use rules::entry::Entry;
use rules::rule::Rule;
use rules::way::Way;
use sets::decision::Decision;
use sets::set::Set;
use std::process::Abort;
use std::test::Fail;

// Condition 0: decision 3. Condition 1: at most two of 0, 1 and 2.
const CONDITIONS: [ListedCondition; 2] = [
    ListedCondition {
        domain: 0b1000,
        first: 0,
        len: 1,
    },
    ListedCondition {
        domain: 0b0111,
        first: 1,
        len: 7,
    },
];

const SETS: [Set; 8] = [0b1000, 0b000, 0b001, 0b010, 0b011, 0b100, 0b101, 0b110];

const IS_0: Entry = Entry {
    condition: 0,
    negated: false,
};

const NOT_1: Entry = Entry {
    condition: 1,
    negated: true,
};

fn bank() -> ListedBank<'static> {
    let mut bank = ListedBank::new();
    let _ = bank.load(&CONDITIONS, &SETS);
    bank
}

// A rule for a decision, or with no head for a number that is no decision's.
fn rule(place: u8, body: &[Entry]) -> Option<Rule> {
    Rule::new(Decision::new(place), body)
}

// Decisions 0 and 1 are given, 2 follows from 3, and 3 unless at most two of 0, 1 and 2 are there.
fn counted() -> Option<[Rule; 4]> {
    Some([
        rule(0, &[])?,
        rule(1, &[])?,
        rule(2, &[IS_0])?,
        rule(3, &[NOT_1])?,
    ])
}

fn program<'a>(
    bank: &'a ListedBank<'static>,
    way: Way,
    rules: &'a [Rule],
) -> Program<'a, ListedBank<'static>> {
    Program { bank, way, rules }
}

// The first four ranks.
fn check_ranks(rt: &impl Abort, ranks: Option<Ranks>, first: [u8; 4]) -> Result<(), Fail> {
    let Some(found) = ranks else {
        assert!(rt; false);
        return Ok(());
    };
    assert!(rt; found.as_slice().starts_with(&first));
    Ok(())
}

#[test]
fn a_count_said_with_not(rt: HostRuntime) -> Result<(), Fail> {
    let bank = bank();
    let Some(rules) = counted() else {
        assert!(rt; false);
        return Ok(());
    };
    let reduct = program(&bank, Way::Reduct, &rules);
    let complement = program(&bank, Way::Complement, &rules);
    check_ranks(&rt, reduct.rank_set(0b0011), [1, 1, 0, 0])?;
    check_ranks(&rt, complement.rank_set(0b0011), [1, 1, 0, 0])?;
    check_ranks(&rt, reduct.rank_set(0b1111), [1, 1, 2, 1])?;
    assert!(rt; complement.rank_set(0b1111).is_none());
    Ok(())
}

#[test]
fn ranks_that_bear_and_ranks_that_do_not(rt: HostRuntime) -> Result<(), Fail> {
    let bank = bank();
    let Some(rules) = counted() else {
        assert!(rt; false);
        return Ok(());
    };
    let mut ranks = [0u8; 64];
    ranks[0] = 1;
    ranks[1] = 1;
    ranks[2] = 200;
    ranks[3] = 7;
    let reduct = program(&bank, Way::Reduct, &rules);
    let complement = program(&bank, Way::Complement, &rules);
    assert!(rt; reduct.bears(0b1111, &ranks));
    assert!(rt; !complement.bears(0b1111, &ranks));
    assert!(rt; !reduct.bears(0b0111, &ranks));
    ranks[2] = 7;
    assert!(rt; !reduct.bears(0b1111, &ranks));
    Ok(())
}

#[test]
fn the_lowest_broken_rule(rt: HostRuntime) -> Result<(), Fail> {
    let bank = bank();
    let Some(rules) = counted() else {
        assert!(rt; false);
        return Ok(());
    };
    assert_eq!(rt; lowest_broken(&bank, &rules, 0b0000), Some(0));
    assert_eq!(rt; lowest_broken(&bank, &rules, 0b0001), Some(1));
    assert_eq!(rt; lowest_broken(&bank, &rules, 0b1011), Some(2));
    assert_eq!(rt; lowest_broken(&bank, &rules, 0b0111), Some(3));
    assert!(rt; keeps_all(&bank, &rules, 0b0011));
    Ok(())
}

#[test]
fn a_rule_with_no_head(rt: HostRuntime) -> Result<(), Fail> {
    let bank = bank();
    let Some(rule) = rule(255, &[IS_0]) else {
        assert!(rt; false);
        return Ok(());
    };
    let rules = [rule];
    assert!(rt; keeps_all(&bank, &rules, 0b0000));
    assert!(rt; !keeps_all(&bank, &rules, 0b1000));
    Ok(())
}
