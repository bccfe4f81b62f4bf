// The season book at work: how the conditions of the house bank stand while some decisions are open, bad tables refused, and which sets
// some rules bear.
#![tactic(auto)]

use banks::bank::Bank;
use banks::verdict::standing_of;
use house::bank::{House, house_bank};
use judge::keeping::lowest_broken;
use judge::program::Program;
use listed::bank::ListedBank;
use listed::condition::ListedCondition;
use measures::kilo::Kilo;
use refusals::refusal::Refusal;
use rules::entry::Entry;
use rules::rule::Rule;
use rules::way::Way;
use sets::decision::Decision;
use sets::set::Set;
use sets::span::Span;
use shown::braces::Braces;
use shown::ranked::RankedSet;
use std::io;
use weighed::bank::WeighedBank;
use weighed::condition::WeighedCondition;

// A table that names one set twice.
const DOUBLED: [ListedCondition; 1] = [ListedCondition {
    domain: 0b1,
    first: 0,
    len: 2,
}];

const DOUBLED_SETS: [Set; 2] = [0b1, 0b1];

// A table with a weight of one kilo too many.
const HEAVY: [WeighedCondition<i32>; 1] = [WeighedCondition {
    domain: 0b1,
    low: 0,
    high: 5,
    first: 0,
}];

const HEAVY_WEIGHTS: [i32; 1] = [1_000_001];

// One line for each condition of the bank.
fn report<B: Bank>(rt: &impl Print, bank: &B, decided: Set, possible: Set) -> io::Result<()> {
    let span = Span::new(decided, possible);
    let made = Braces(span.lower());
    let left = Braces(span.upper());
    println!(rt; "decided {made}, possible {left}")?;
    // over the numbers of the conditions, which stand in no list
    for k in 0..bank.count() {
        let says = standing_of(bank, k, span);
        println!(rt; "condition {k}: {says}")?;
    }
    Ok(())
}

// One line on a load, with the number of conditions that it left.
fn loaded(rt: &impl Print, what: &str, load: Result<(), Refusal>, count: u16) -> io::Result<()> {
    match load {
        Ok(()) => println!(rt; "{what}: taken, conditions: {count}"),
        Err(refusal) => println!(rt; "{what}: {refusal}, conditions: {count}"),
    }
}

// One line on a set under some rules: the lowest rule that it breaks, or its ranks, or that none bear it.
fn judged(rt: &impl Print, program: &Program<House>, set: Set) -> io::Result<()> {
    let by = program.way;
    let shown = Braces(set);
    if let Some(i) = lowest_broken(program.bank, program.rules, set) {
        return println!(rt; "{shown} by {by}: breaks rule {i}");
    }
    match program.rank_set(set) {
        Some(ranks) => {
            let list = RankedSet { set, ranks };
            println!(rt; "{shown} by {by}: ranks{list}")
        }
        None => println!(rt; "{shown} by {by}: no ranks bear it"),
    }
}

// A rule with one entry that gives a decision, or none for a number that is no decision's.
fn when(place: u8, condition: u16, negated: bool) -> Option<Rule> {
    Rule::new(Some(Decision::new(place)?), &[Entry { condition, negated }])
}

// A rule that gives a decision at once.
fn given(place: u8) -> Option<Rule> {
    Rule::new(Some(Decision::new(place)?), &[])
}

// Decision 0 is given, and decision 1 follows from condition 0.
fn chain() -> Option<[Rule; 2]> {
    Some([given(0)?, when(1, 0, false)?])
}

// Decisions 0 and 1 follow from each other.
fn ring() -> Option<[Rule; 2]> {
    Some([when(0, 1, false)?, when(1, 0, false)?])
}

// Decision 0 follows where it and decision 1 are not alike.
fn unlike() -> Option<[Rule; 1]> {
    Some([when(0, 2, true)?])
}

// Some sets under rules that are read by one way.
fn judged_all(rt: &impl Print, program: &Program<House>, sets: &[Set]) -> io::Result<()> {
    for set in sets {
        judged(rt, program, *set)?;
    }
    Ok(())
}

fn chain_judged(rt: &impl Print, bank: &House) -> io::Result<()> {
    let Some(rules) = chain() else {
        return Ok(());
    };
    println!(rt; "decision 0; decision 1 when condition 0")?;
    let program = Program {
        bank,
        way: Way::Reduct,
        rules: &rules,
    };
    judged_all(rt, &program, &[0b11, 0b01])
}

fn ring_judged(rt: &impl Print, bank: &House) -> io::Result<()> {
    let Some(rules) = ring() else {
        return Ok(());
    };
    println!(rt; "decision 0 when condition 1; decision 1 when condition 0")?;
    let program = Program {
        bank,
        way: Way::Reduct,
        rules: &rules,
    };
    judged_all(rt, &program, &[0b11, 0b00])
}

// By both ways.
fn unlike_judged(rt: &impl Print, bank: &House) -> io::Result<()> {
    let Some(rules) = unlike() else {
        return Ok(());
    };
    println!(rt; "decision 0 when not condition 2")?;
    for way in [Way::Reduct, Way::Complement] {
        let program = Program {
            bank,
            way,
            rules: &rules,
        };
        judged(rt, &program, 0b01)?;
    }
    Ok(())
}

fn main(rt: HostRuntime) -> io::Result<()> {
    let house = house_bank();
    report(&rt, &house, 0b000, 0b111)?;
    report(&rt, &house, 0b001, 0b011)?;
    report(&rt, &house, 0b100, 0b110)?;
    let mut listed = ListedBank::new();
    let load = listed.load(&DOUBLED, &DOUBLED_SETS);
    loaded(&rt, "a set named twice", load, listed.count())?;
    let mut kilos = WeighedBank::<Kilo>::new();
    let load = kilos.load(&HEAVY, &HEAVY_WEIGHTS);
    loaded(&rt, "a weight of 1000001 kilos", load, kilos.count())?;
    chain_judged(&rt, &house)?;
    ring_judged(&rt, &house)?;
    unlike_judged(&rt, &house)
}
