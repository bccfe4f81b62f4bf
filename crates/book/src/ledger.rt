ghost use Rattle.std.specs.Prelude.{length};
ghost use Rattle.rows.specs.Rows.{held};
ghost use Rattle.book.specs.Counts.{counts, Level};

use crate::limits::{MAX_PAGES, MAX_RULES};
use crate::page::Page;
use banks::bank::Bank;
use rows::row::Row;
use rules::rule::Rule;

mod breaching;
mod entering;
mod filing;
mod opening;
mod parts;
mod searching;
mod showing;
mod withdrawing;

// The rules and pages over a bank. They are held in place: no call on a book may fail for want of memory. Its calls stand a second time at the
// open book, which shows them. One type for both would be no plainer: what may be called is the book's type, and what is done is the ledger's.
#[derive(Drop)]
pub struct Ledger<B: Bank> {
    bank: B,
    rules: Row<Rule, MAX_RULES>,
    pages: Row<Page, MAX_PAGES>,
    ghost level: { Level (counts (held pages)) (length (held rules)) },
}
