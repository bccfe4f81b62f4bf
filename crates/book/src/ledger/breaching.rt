ghost use Rattle.std.specs.Prelude.{◌≡◌, List};
ghost use Rattle.answer_sets.specs.Rules.{Keeps};
ghost use Rattle.rows.specs.Listings.{Lists};
ghost use Rattle.rules.specs.Shapes.{rules_of};
ghost use Rattle.book.specs.Looking.{Breaches};
ghost use Rattle.book.specs.View.{view};

use crate::breach::Breach;
use crate::ledger::Ledger;
use banks::bank::Bank;
use judge::keeping::keeps;
use rows::lent::LentList;
use rows::listing::Listing;
use rules::rule::Rule;
use sets::set::Set;

// The record of a broken rule.
fn breach(number: usize, rule: &Rule) -> Breach
    ensures { result ≡ record { rule = number; head = rule.now.head } }
{
    Breach {
        rule: number,
        head: rule.head(),
    }
}

// Puts the rules that a set breaks into an empty list, lowest first, up to the first that finds no place.
fn put_breaches<B: Bank>(
    list: &mut LentList<Breach>,
    bank: &B,
    rules: &[Rule],
    set: Set,
) -> Option<Breach>
    requires { list.old.len ≡ 0 }
    ensures listed { (items : List Breach) × Breaches (B.meaning bank.now) set 0 (rules_of rules.now) items
        × Lists items list.old.places.now (record { placed = list.new.len; unplaced = result }) list.new.places.now }
    ensures lender { list.new.places.ghost_name ≡ list.old.places.ghost_name }
{
    for (i, rule) in rules.iter().enumerate() {
        if keeps(bank, rule, set) {
            continue;
        }
        if let Err(found) = list.put(breach(i, rule)) {
            return Some(found);
        }
    }
    None
}

// Lists the rules that a set breaks in the caller's memory, lowest first.
fn list_breaches<B: Bank>(
    bank: &B,
    rules: &[Rule],
    set: Set,
    places: &mut [Breach],
) -> Listing<Breach>
    ensures { (items : List Breach) × Breaches (B.meaning bank.now) set 0 (rules_of rules.now) items × Lists items places.old result places.new }
{
    let mut list = LentList::new(places);
    let unplaced = put_breaches(&mut list, bank, rules, set);
    Listing {
        placed: list.len(),
        unplaced,
    }
}

impl<B: Bank> Ledger<B> {
    pub(crate) fn breaches(&self, set: Set, places: &mut [Breach]) -> Listing<Breach>
        ensures { (items : List Breach) × Breaches (B.meaning self.now.bank) set 0 (view self.now).rules items × Lists items places.old result places.new }
    {
        list_breaches(&self.bank, self.rules.as_slice(), set, places)
    }
}
