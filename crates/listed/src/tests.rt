use crate::bank::ListedBank;
use crate::condition::ListedCondition;
use banks::bank::Bank;
use sets::set::Set;
use sets::span::Span;

const PAIR: [ListedCondition; 1] = [ListedCondition {
    domain: 0b11,
    first: 0,
    len: 2,
}];

// How many conditions the bank has after a load, and whether the load was taken.
fn loaded<'x>(conditions: &'x [ListedCondition], sets: &'x [Set]) -> (bool, u16) {
    let mut bank = ListedBank::new();
    let taken = bank.load(conditions, sets).is_ok();
    (taken, bank.count())
}

fn one(domain: Set, first: usize, len: usize) -> [ListedCondition; 1] {
    [ListedCondition { domain, first, len }]
}

#[test]
fn sizes(rt: HostRuntime) {
    let blank = ListedCondition {
        domain: 0,
        first: 0,
        len: 0,
    };
    assert_eq!(rt; loaded(&[], &[]), (true, 0));
    assert_eq!(rt; loaded(&[blank; 256], &[]), (true, 256));
    assert_eq!(rt; loaded(&[blank; 257], &[]), (false, 0));
    assert_eq!(rt; loaded(&one(0xfff, 0, 0), &[]), (true, 1));
    assert_eq!(rt; loaded(&one(0x1fff, 0, 0), &[]), (false, 0));
}

#[test]
fn places(rt: HostRuntime) {
    assert_eq!(rt; loaded(&one(1, 0, 2), &[0, 1]), (true, 1));
    assert_eq!(rt; loaded(&one(1, 2, 0), &[0, 1]), (true, 1));
    assert_eq!(rt; loaded(&one(1, 1, 2), &[0, 1]), (false, 0));
    assert_eq!(rt; loaded(&one(1, 3, 0), &[0, 1]), (false, 0));
    assert_eq!(rt; loaded(&one(1, usize::MAX, 1), &[0, 1]), (false, 0));
    assert_eq!(rt; loaded(&one(1, 1, usize::MAX), &[0, 1]), (false, 0));
}

#[test]
fn families(rt: HostRuntime) {
    assert_eq!(rt; loaded(&PAIR, &[0, 3]), (true, 1));
    assert_eq!(rt; loaded(&PAIR, &[3, 3]), (false, 0));
    assert_eq!(rt; loaded(&PAIR, &[3, 0]), (false, 0));
    assert_eq!(rt; loaded(&PAIR, &[0, 4]), (false, 0));
}

#[test]
fn a_refused_load_empties(rt: HostRuntime) {
    let mut bank = ListedBank::new();
    assert!(rt; bank.load(&PAIR, &[0, 3]).is_ok());
    assert_eq!(rt; bank.domain(0), 3);
    assert!(rt; bank.load(&PAIR, &[3, 3]).is_err());
    assert_eq!(rt; (bank.count(), bank.domain(0)), (0, 0));
    assert!(rt; bank.never(0, Span::new(0, u64::MAX)));
}

#[test]
fn both_or_neither(rt: HostRuntime) {
    let mut bank = ListedBank::new();
    assert!(rt; bank.load(&PAIR, &[0, 3]).is_ok());
    assert!(rt; !bank.always(0, Span::new(0, 3)));
    assert!(rt; !bank.never(0, Span::new(0, 3)));
    assert!(rt; bank.always(0, Span::new(3, 7)));
    assert!(rt; bank.always(0, Span::new(0, 4)));
    assert!(rt; bank.never(0, Span::new(1, 5)));
    assert!(rt; !bank.always(7, Span::new(0, 3)));
    assert!(rt; bank.never(7, Span::new(0, 3)));
}
