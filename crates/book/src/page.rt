use judge::ranks::Ranks;
use rules::way::Way;
use sets::set::Set;

// A page as the book holds it: the rules that it rests on are the first of the book's.
#[derive(Clone, Copy)]
pub struct Page {
    pub way: Way,
    pub set: Set,
    pub ranks: Ranks,
    pub rules: usize,
}
