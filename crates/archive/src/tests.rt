use crate::print::print_text;
use book::limits::{MAX_PAGES, MAX_RULES};
use book::page::Page;
use judge::ranks::Ranks;
use refusals::refusal::Refusal;
use rows::row::Row;
use rules::entry::Entry;
use rules::rule::Rule;
use rules::way::Way;
use sets::decision::Decision;
use sets::decisions::Decisions;
use std::process::Abort;
use std::test::Fail;

const IF_3: Entry = Entry {
    condition: 3,
    negated: false,
};

const NOT_2: Entry = Entry {
    condition: 2,
    negated: true,
};

// The page of the empty set, on no rules.
fn blank() -> Page {
    Page {
        way: Way::Reduct,
        set: 0,
        ranks: Ranks::none(),
        rules: 0,
    }
}

// Decision 0 always, 1 if condition 3.
fn two_rules() -> Option<Row<Rule, MAX_RULES>> {
    let mut rules = Row::new(Rule::empty());
    let _ = rules.push(Rule::new(Decision::new(0), &[])?);
    let _ = rules.push(Rule::new(Decision::new(1), &[IF_3])?);
    Some(rules)
}

// Decisions 0 and 1 with ranks 1 and 2, on the first so many rules.
fn page(way: Way, rules: usize) -> Page {
    let mut ranks = Ranks::none();
    for d in Decisions::of(3) {
        ranks.give(d, d.place() + 1);
    }
    Page {
        way,
        set: 3,
        ranks,
        rules,
    }
}

// A text is printed: exactly this, with the memory past it as it was.
fn check_text(
    rt: &impl Abort,
    count: u16,
    rules: &Row<Rule, MAX_RULES>,
    pages: &Row<Page, MAX_PAGES>,
    text: &[u8],
) -> Result<(), Fail> {
    let mut memory = [7u8; 400];
    let Ok(n) = print_text(count, rules, pages, &mut memory) else {
        assert!(rt; false, "refused");
        return Ok(());
    };
    assert_eq!(rt; n, text.len());
    assert!(rt; memory.starts_with(text));
    assert!(rt; n < 400);
    assert_eq!(rt; memory[n], 7);
    Ok(())
}

#[test]
fn two_rules_and_a_page(rt: HostRuntime) -> Result<(), Fail> {
    let Some(rules) = two_rules() else {
        assert!(rt; false);
        return Ok(());
    };
    let mut pages = Row::new(blank());
    let _ = pages.push(page(Way::Complement, 2));
    check_text(
        &rt,
        5,
        &rules,
        &pages,
        b"010005\n020000\n0201010003\n030200000000000000030102\n040201\n",
    )
}

#[test]
fn an_empty_book(rt: HostRuntime) -> Result<(), Fail> {
    let rules = Row::new(Rule::empty());
    let pages = Row::new(blank());
    check_text(&rt, 32767, &rules, &pages, b"017fff\n040000\n")
}

#[test]
fn pages_among_the_rules(rt: HostRuntime) -> Result<(), Fail> {
    let Some(last) = Rule::new(Decision::new(64), &[NOT_2, IF_3]) else {
        assert!(rt; false);
        return Ok(());
    };
    let Some(mut rules) = two_rules() else {
        assert!(rt; false);
        return Ok(());
    };
    let _ = rules.push(last);
    let mut pages = Row::new(blank());
    let _ = pages.push(blank());
    let _ = pages.push(page(Way::Reduct, 2));
    let _ = pages.push(page(Way::Complement, 2));
    check_text(
        &rt,
        5,
        &rules,
        &pages,
        b"010005\n03010000000000000000\n020000\n0201010003\n030100000000000000030102\n030200000000000000030102\n02ff0280020003\n040303\n",
    )
}

#[test]
fn all_64_decisions(rt: HostRuntime) -> Result<(), Fail> {
    let rules = Row::new(Rule::empty());
    let mut ranks = Ranks::none();
    for d in Decisions::of(u64::MAX) {
        ranks.give(d, 171);
    }
    let mut pages = Row::new(blank());
    let _ = pages.push(Page {
        way: Way::Reduct,
        set: u64::MAX,
        ranks,
        rules: 0,
    });
    check_text(
        &rt,
        0,
        &rules,
        &pages,
        b"010000\n0301ffffffffffffffffabababababababababababababababababababababababababababababababababababababababababababababababababababababababababababababababab\n040001\n",
    )
}

#[test]
fn memory_too_short(rt: HostRuntime) {
    let rules = Row::new(Rule::empty());
    let pages = Row::new(blank());
    let mut memory = [7u8; 13];
    assert_eq!(rt;
        print_text(5, &rules, &pages, &mut memory),
        Err(Refusal::ShortMemory(14))
    );
    assert!(rt; memory == [7; 13]);
}
