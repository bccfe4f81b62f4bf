// The search at work: the lowest answer set from a start, and all of them.
use book::open_book::OpenBook;
use house::bank::{House, house_bank};
use rules::entry::NOT;
use rules::way::Way;
use sets::set::Set;
use shown::braces::Braces;
use std::io;

// One line on the next answer set.
fn sought(rt: &impl Print, book: &OpenBook<House>, way: Way, start: Set) -> io::Result<()> {
    match book.next(way, start) {
        Ok((set, tried)) => {
            let shown = Braces(set);
            println!(rt; "next from {start} by {way}: {shown}, tried {tried}")
        }
        Err(refusal) => println!(rt; "from {start} by {way} next: {refusal}"),
    }
}

// The answer sets, as many as one place takes.
fn gathered(rt: &impl Print, book: &OpenBook<House>, way: Way) -> io::Result<()> {
    let mut places: [Set; 1] = [0];
    match book.gather(way, 0, &mut places) {
        Ok(listing) => {
            print!(rt; "gathered by {way}:")?;
            for set in places.iter().take(listing.placed) {
                let shown = Braces(*set);
                print!(rt; " {shown}")?;
            }
            ended(rt, listing.unplaced)
        }
        Err(refusal) => println!(rt; "gather: {refusal}"),
    }
}

fn ended(rt: &impl Print, unplaced: Option<Set>) -> io::Result<()> {
    match unplaced {
        None => println!(rt; ", complete"),
        Some(set) => {
            let shown = Braces(set);
            println!(rt; ", no place for {shown}")
        }
    }
}

// The search by both ways.
fn both(rt: &impl Print, book: &OpenBook<House>) -> io::Result<()> {
    sought(rt, book, Way::Reduct, 0)?;
    sought(rt, book, Way::Complement, 0)?;
    gathered(rt, book, Way::Reduct)?;
    gathered(rt, book, Way::Complement)
}

// Three books: one answer set, several, and one by reduct alone.
pub(crate) fn search(rt: &impl Print) -> io::Result<()> {
    let mut chain = OpenBook::open(house_bank());
    let _ = chain.enter(0, &[]);
    let _ = chain.enter(1, &[3]);
    println!(rt; "0 always; 1 if 3")?;
    both(rt, &chain)?;
    let mut choice = OpenBook::open(house_bank());
    let _ = choice.enter(0, &[NOT + 1]);
    let _ = choice.enter(1, &[NOT]);
    println!(rt; "0 if not 1; 1 if not 0")?;
    both(rt, &choice)?;
    let mut unlike = OpenBook::open(house_bank());
    let _ = unlike.enter(0, &[NOT + 2]);
    println!(rt; "0 if not 2")?;
    both(rt, &unlike)?;
    sought(rt, &unlike, Way::Complement, 1)
}
