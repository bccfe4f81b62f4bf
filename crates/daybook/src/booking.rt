// A book over the house bank at work: each call with its answer.
use archive::print::print_book;
use book::breach::Breach;
use book::open_book::OpenBook;
use house::bank::{House, house_bank};
use judge::depth::depth_of;
use judge::ranks::Ranks;
use naming::head::head_number;
use naming::way::way_named;
use refusals::refusal::Refusal;
use shown::braces::Braces;
use shown::ranked::RankedSet;
use std::io;

// One line on a call that answers a number.
fn answered(rt: &impl Print, what: &str, answer: Result<usize, Refusal>) -> io::Result<()> {
    match answer {
        Ok(n) => println!(rt; "{what}: {n}"),
        Err(refusal) => println!(rt; "{what}: {refusal}"),
    }
}

// One line on a page: its way, its set, on how many rules it rests, its ranks and its depth.
fn paged(rt: &impl Print, book: &OpenBook<House>, number: usize) -> io::Result<()> {
    let mut memory = [0u8; 64];
    match book.page(number, &mut memory) {
        Ok(page) => {
            let way = page.way;
            let set = Braces(page.set);
            let rules = page.rules;
            let depth = depth_of(&memory);
            let list = RankedSet {
                set: page.set,
                ranks: ranks_of(&memory),
            };
            println!(rt;
                "page {number}: {set} by {way} on {rules} rules, ranks{list}, depth {depth}"
            )
        }
        Err(refusal) => println!(rt; "page: {refusal}"),
    }
}

// The rules that a set breaks, as many as the places take.
fn broken(rt: &impl Print, book: &OpenBook<House>, set: u64) -> io::Result<()> {
    let mut places = [Breach {
        rule: 0,
        head: None,
    }];
    let listing = book.breaches(set, &mut places);
    let shown = Braces(set);
    for breach in places.iter().take(listing.placed) {
        let rule = breach.rule;
        let head = head_number(breach.head);
        println!(rt; "{shown} breaks rule {rule}, head {head}")?;
    }
    match listing.unplaced {
        None => println!(rt; "{shown} breaks no other rule"),
        Some(next) => {
            let rule = next.rule;
            println!(rt; "{shown} breaks rule {rule} too, which has no place")
        }
    }
}

// The text of a book, line by line.
fn printed(rt: &impl Print, book: &OpenBook<House>) -> io::Result<()> {
    let mut memory = [0u8; 256];
    match print_book(book, &mut memory) {
        Ok(length) => {
            for byte in memory.iter().take(length) {
                let c = *byte as char;
                print!(rt; "{c}")?;
            }
            Ok(())
        }
        Err(refusal) => println!(rt; "print: {refusal}"),
    }
}

// These bytes as ranks; none where they are not one for each decision.
fn ranks_of(bytes: &[u8]) -> Ranks {
    Ranks::try_from(bytes).unwrap_or(Ranks::none())
}

// Ranks that begin with these two.
fn two_ranks(first: u8, second: u8) -> [u8; 64] {
    let mut ranks = [0u8; 64];
    ranks[0] = first;
    ranks[1] = second;
    ranks
}

// Rules entered, sets filed and lodged, and what is refused.
pub(crate) fn day(rt: &impl Print) -> io::Result<()> {
    let mut book = OpenBook::open(house_bank());
    answered(rt, "enter 0 always", book.enter(0, &[]))?;
    answered(rt, "enter 1 if 3", book.enter(1, &[3]))?;
    answered(rt, "enter 64 always", book.enter(64, &[]))?;
    answered(rt, "enter 0 if 5", book.enter(0, &[5]))?;
    let way = match way_named("complement") {
        Ok(way) => way,
        Err(refusal) => return println!(rt; "complement: {refusal}"),
    };
    if let Err(refusal) = way_named("either") {
        println!(rt; "the way named either: {refusal}")?;
    }
    answered(rt, "file 0x3 by complement", book.file(way, 0x3))?;
    printed(rt, &book)?;
    answered(rt, "file 0x1 by complement", book.file(way, 0x1))?;
    broken(rt, &book, 0x1)?;
    broken(rt, &book, 0x4)?;
    let lodged = book.lodge(way, 0x3, &two_ranks(1, 3));
    answered(rt, "lodge 0x3 with ranks 1, 3", lodged)?;
    let lodged = book.lodge(way, 0x3, &two_ranks(1, 1));
    answered(rt, "lodge 0x3 with ranks 1, 1", lodged)?;
    answered(rt, "withdraw", book.withdraw())?;
    paged(rt, &book, 0)?;
    paged(rt, &book, 1)?;
    paged(rt, &book, 2)
}
