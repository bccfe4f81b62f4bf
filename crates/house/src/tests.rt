use crate::bank::{House, house_bank};
use banks::bank::Bank;
use banks::pair::PairBank;
use measures::grade::Grade;
use measures::kilo::Kilo;
use measures::measure::Measure;
use sets::set::Set;
use sets::span::Span;
use weighed::bank::WeighedBank;
use weighed::condition::WeighedCondition;

// Which conditions of the house bank hold at each subset of {0, 1, 2}: bit k for condition k.
const HOLDS: [u8; 8] = [
    0b10100, 0b11001, 0b10010, 0b11111, 0b01100, 0b01001, 0b01010, 0b01111,
];

fn holds(bank: &impl Bank, k: u16, set: Set) -> bool {
    bank.always(k, Span::new(set, set))
}

#[test]
fn house_conditions_at_every_set(rt: HostRuntime) {
    let bank = house_bank();
    assert_eq!(rt; bank.count(), 5);
    for (set, holding) in HOLDS.iter().enumerate() {
        for k in 0..5u8 {
            assert_eq!(rt;
                holds(&bank, k as u16, set as Set),
                (*holding >> k) % 2 == 1
            );
        }
    }
}

#[test]
fn past_the_house(rt: HostRuntime) {
    let bank = house_bank();
    assert_eq!(rt; bank.domain(4), 5);
    assert_eq!(rt; bank.domain(5), 0);
    assert!(rt; !bank.always(5, Span::new(0, 7)));
    assert!(rt; bank.never(5, Span::new(0, 7)));
    assert!(rt; bank.never(u16::MAX, Span::new(0, 7)));
}

#[test]
fn sums_stop_at_the_ends(rt: HostRuntime) {
    let top = Kilo { value: i32::MAX };
    let bottom = Kilo { value: i32::MIN };
    assert_eq!(rt; top.with(1).value, i32::MAX);
    assert_eq!(rt; bottom.with(-1).value, i32::MIN);
    assert_eq!(rt; top.with(-1).value, i32::MAX - 1);
    assert!(rt; Kilo::is_weight(1_000_000) && Kilo::is_weight(-1_000_000));
    assert!(rt; !Kilo::is_weight(1_000_001) && !Kilo::is_weight(-1_000_001));
    assert_eq!(rt; Grade::none().with(3).with(1).value, 3);
}

fn kilo_load<'x>(conditions: &'x [WeighedCondition<i32>], weights: &'x [i32]) -> (bool, u16) {
    let mut bank = WeighedBank::<Kilo>::new();
    let taken = bank.load(conditions, weights).is_ok();
    (taken, bank.count())
}

fn line(domain: Set, low: i32, high: i32, first: usize) -> [WeighedCondition<i32>; 1] {
    [WeighedCondition {
        domain,
        low,
        high,
        first,
    }]
}

#[test]
fn kilo_loads(rt: HostRuntime) {
    let blank = WeighedCondition {
        domain: 0,
        low: 0,
        high: 0,
        first: 0,
    };
    assert_eq!(rt; kilo_load(&[blank; 256], &[]), (true, 256));
    assert_eq!(rt; kilo_load(&[blank; 257], &[]), (false, 0));
    assert_eq!(rt; kilo_load(&line(0xfff, 0, 0, 0), &[0; 12]), (true, 1));
    assert_eq!(rt; kilo_load(&line(0x1fff, 0, 0, 0), &[0; 13]), (false, 0));
    assert_eq!(rt; kilo_load(&line(3, 0, 0, 1), &[0, 0, 0]), (true, 1));
    assert_eq!(rt; kilo_load(&line(3, 0, 0, 2), &[0, 0, 0]), (false, 0));
    assert_eq!(rt; kilo_load(&line(0, 0, 0, 3), &[0, 0, 0]), (true, 1));
    assert_eq!(rt; kilo_load(&line(0, 0, 0, 4), &[0, 0, 0]), (false, 0));
    assert_eq!(rt; kilo_load(&line(1, 0, 0, usize::MAX), &[0]), (false, 0));
}

#[test]
fn kilo_figures(rt: HostRuntime) {
    assert_eq!(rt;
        kilo_load(&line(1, i32::MIN, i32::MAX, 0), &[1_000_000]),
        (true, 1)
    );
    assert_eq!(rt; kilo_load(&line(1, 0, 0, 0), &[1_000_001]), (false, 0));
    assert_eq!(rt; kilo_load(&line(1, 0, 0, 0), &[-1_000_000]), (true, 1));
    assert_eq!(rt; kilo_load(&line(1, 0, 0, 0), &[-1_000_001]), (false, 0));
}

#[test]
fn twelve_decisions(rt: HostRuntime) {
    let conditions = line(0xfff, -1_000_000, 12_000_000, 0);
    let weights = [1_000_000; 12];
    let mut bank = WeighedBank::<Kilo>::new();
    assert!(rt; bank.load(&conditions, &weights).is_ok());
    assert!(rt; bank.always(0, Span::new(0, u64::MAX)));
    let tight = line(0xfff, 500_000, 11_500_000, 0);
    assert!(rt; bank.load(&tight, &weights).is_ok());
    assert!(rt; !bank.always(0, Span::new(0, u64::MAX)));
    assert!(rt; !bank.never(0, Span::new(0, u64::MAX)));
    assert!(rt; bank.always(0, Span::new(1, 0x7ff)));
    assert!(rt; bank.never(0, Span::new(0xfff, 0xfff)));
}

#[test]
fn between_two_totals(rt: HostRuntime) {
    let conditions = [
        WeighedCondition {
            domain: 3,
            low: 3,
            high: 5,
            first: 0,
        },
        WeighedCondition {
            domain: 3,
            low: 5,
            high: 3,
            first: 0,
        },
        WeighedCondition {
            domain: 0,
            low: 0,
            high: 0,
            first: 0,
        },
        WeighedCondition {
            domain: 0,
            low: 1,
            high: 2,
            first: 0,
        },
    ];
    let weights = [1, 9];
    let mut bank = WeighedBank::<Kilo>::new();
    assert!(rt; bank.load(&conditions, &weights).is_ok());
    // totals 0, 1, 9 and 10, and bounds that lie between them
    assert!(rt; bank.never(0, Span::new(0, 3)));
    // a lower bound above the upper one
    assert!(rt; bank.never(1, Span::new(0, 3)));
    // empty domains: nothing is 0
    assert!(rt; bank.always(2, Span::new(0, 3)));
    assert!(rt; bank.never(3, Span::new(0, 3)));
}

fn twice() -> PairBank<House, House> {
    PairBank {
        first: house_bank(),
        second: house_bank(),
    }
}

#[test]
fn pairs_nest(rt: HostRuntime) {
    let pair = twice();
    assert_eq!(rt; pair.count(), 10);
    assert_eq!(rt; pair.domain(8), 7);
    assert!(rt; holds(&pair, 8, 1));
    assert!(rt; !holds(&pair, 8, 2));
}
