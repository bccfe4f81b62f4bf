ghost use Rattle.std.specs.Prelude.{◌≡◌, ◌+◌, ◌*◌, ◌^◌, ◌<◌, ◌≤◌, min, [], ◌∷◌, map, length, MatchResult, ◌==◌};
ghost use Rattle.rows.specs.Rows.{held};
ghost use Rattle.refusals.specs.Numbers.{Says};
ghost use Rattle.rules.specs.Shapes.{rules_of};
ghost use Rattle.book.specs.View.{page_of, account_of, view};
ghost use Rattle.archive.specs.Text.{inner, lines, text_of};
ghost use Rattle.archive.specs.Writing.{Puts, lines_on, Printed, Refused};

use crate::spelling::{header_bytes, page_bytes, rule_bytes, trailer_bytes};
use crate::writing::put_line;
use banks::bank::Bank;
use book::ledger::Ledger;
use book::limits::{MAX_PAGES, MAX_RULES};
use book::open_book::OpenBook;
use book::page::Page;
use refusals::refusal::Refusal;
use rows::row::Row;
use rules::rule::Rule;

// Whether a page rests on exactly k of so many rules. None rests on more than there are.
fn rests_on(page: &Page, rules: usize, k: usize) -> bool
    ensures { result ≡ (min page.now.rules rules == k) }
{
    page.rules.min(rules) == k
}

// Puts the line of a page that rests on exactly k rules, and nothing for any other page.
fn put_page(memory: &mut [u8], at: usize, rules: &[Rule], page: &Page, k: usize) -> usize
    requires { at < 2 ^ 32 }
    ensures puts { Puts memory.old at (lines_on k (page_of (rules_of rules.now) page.now ∷ [])) memory.new result }
    ensures near { result ≤ at + 149 }
{
    if !rests_on(page, rules.len(), k) {
        return at;
    }
    put_line(memory, at, &page_bytes(page))
}

// Puts the lines of the pages that rest on exactly k rules. Rules and pages stay two parameters, here and in the two functions below: a pair
// would be taken apart again in each contract.
fn put_pages(memory: &mut [u8], at: usize, rules: &[Rule], pages: &[Page], k: usize) -> usize
    requires { at + 149 * length pages.now < 2 ^ 32 }
    ensures puts { Puts memory.old at (lines_on k (map (page_of (rules_of rules.now)) pages.now)) memory.new result }
    ensures near { result ≤ at + 149 * length pages.now }
{
    let mut end = at;
    for page in pages {
        end = put_page(memory, end, rules, page, k);
    }
    end
}

// Puts each rule after the pages that rest on the rules before it, and the pages that rest on all.
fn put_inner(memory: &mut [u8], at: usize, rules: &[Rule], pages: &[Page]) -> usize
    requires { (at ≤ 149) × (length rules.now ≤ 128) × (length pages.now ≤ 64) }
    ensures puts { Puts memory.old at (lines (inner 0 (rules_of rules.now) (map (page_of (rules_of rules.now)) pages.now))) memory.new result }
    ensures near { result < 2 ^ 32 }
{
    let mut end = at;
    for (k, rule) in rules.iter().enumerate() {
        end = put_pages(memory, end, rules, pages, k);
        end = put_line(memory, end, &rule_bytes(rule));
    }
    put_pages(memory, end, rules, pages, rules.len())
}

// Puts the whole text at the front of the memory. Where the memory is too short, it may hold a part; the length is told all the same.
fn put_text(memory: &mut [u8], count: u16, rules: &[Rule], pages: &[Page]) -> usize
    requires { (length rules.now ≤ 128) × (length pages.now ≤ 64) }
    ensures { Puts memory.old 0 (text_of count (account_of rules.now pages.now)) memory.new result }
{
    let start = put_line(memory, 0, &header_bytes(count));
    let end = put_inner(memory, start, rules, pages);
    put_line(
        memory,
        end,
        &trailer_bytes(rules.len() as u8, pages.len() as u8),
    )
}

// The refusal of memory that is shorter than this.
fn too_short(needed: usize) -> Refusal
    ensures { Says result 30 (needed ∷ []) }
{
    Refusal::ShortMemory(needed)
}

// Prints the text of a book, over a bank with this many conditions, into memory that the caller lends, and answers its length.
// The memory past it stays as it was; memory that is too short is refused, and stays as it was.
pub fn print_text(
    count: u16,
    rules: &Row<Rule, MAX_RULES>,
    pages: &Row<Page, MAX_PAGES>,
    memory: &mut [u8],
) -> Result<usize, Refusal>
    ensures { MatchResult result
        (λ n. Printed (text_of count (account_of (held rules.now) (held pages.now))) memory.old n memory.new)
        (λ e. Refused (text_of count (account_of (held rules.now) (held pages.now))) memory.old e memory.new) }
{
    let rules = rules.as_slice();
    let pages = pages.as_slice();
    let needed = put_text(&mut [], count, rules, pages);
    if memory.len() < needed {
        return Err(too_short(needed));
    }
    Ok(put_text(memory, count, rules, pages))
}

// Prints the text of a ledger.
fn print_ledger<B: Bank>(ledger: &Ledger<B>, memory: &mut [u8]) -> Result<usize, Refusal>
    ensures { MatchResult result
        (λ n. Printed (text_of (B.meaning ledger.now.bank).count (view ledger.now)) memory.old n memory.new)
        (λ e. Refused (text_of (B.meaning ledger.now.bank).count (view ledger.now)) memory.old e memory.new) }
{
    print_text(ledger.count(), ledger.rules(), ledger.pages(), memory)
}

// Prints the text of a book in the caller's memory, and answers its length.
pub fn print_book<B: Bank>(book: &OpenBook<B>, memory: &mut [u8]) -> Result<usize, Refusal>
    ensures { MatchResult result
        (λ n. Printed (text_of (B.meaning book.now.ledger.bank).count (view book.now.ledger)) memory.old n memory.new)
        (λ e. Refused (text_of (B.meaning book.now.ledger.bank).count (view book.now.ledger)) memory.old e memory.new) }
{
    print_ledger(book.ledger(), memory)
}
