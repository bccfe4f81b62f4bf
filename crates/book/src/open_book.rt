ghost use Rattle.std.specs.Prelude.{◌≡◌, ◌↔◌, List, [], MatchResult};
ghost use Rattle.answer_sets.specs.Published.{AnswerSetBy, program};
ghost use Rattle.refusals.specs.Numbers.{number, Says};
ghost use Rattle.rows.specs.Listings.{Lists};
ghost use Rattle.rules.specs.Shapes.{way_of};
ghost use Rattle.account.specs.Account.{blank, enter, withdraw, file, lodge, Accepted, Free, Step};
ghost use Rattle.search.specs.Gathering.{Gathers};
ghost use Rattle.search.specs.Search.{Found, Refused, HasManyHeads, LowestAnswer, NoAnswer};
ghost use Rattle.book.specs.Looking.{Shown, Breaches};
ghost use Rattle.book.specs.View.{view, answer_of};

use crate::breach::Breach;
use crate::ledger::Ledger;
use crate::summary::Summary;
use banks::bank::Bank;
use refusals::refusal::Refusal;
use rows::listing::Listing;
use rules::way::Way;
use sets::set::Set;

// A book that takes rules and pages. It has no model: that would hide the bank itself, which each call promises to leave as it is.
#[derive(Drop)]
pub struct OpenBook<B: Bank> {
    ledger: Ledger<B>,
}

impl<B: Bank> OpenBook<B> {
    // An empty book over a bank.
    pub fn open(bank: B) -> OpenBook<B>
        ensures same { result.ledger.bank ≡ bank }
        ensures empty { view result.ledger ≡ blank }
    {
        OpenBook {
            ledger: Ledger::open(bank),
        }
    }

    // What the book holds.
    pub fn ledger(&self) -> &Ledger<B>
        ensures { result.now ≡ self.now.ledger }
    {
        &self.ledger
    }

    // Puts a rule last, and answers its number. The head is a decision's number, or 255 for none; an entry is a condition's number, and
    // 0x8000 more with "not" before it. They come as numbers, since the call refuses those that name nothing.
    pub fn enter(&mut self, head: u8, body: &[u16]) -> Result<usize, Refusal>
        ensures step { Step (B.meaning self.old.ledger.bank) (view self.old.ledger) (enter head body.now) (answer_of result) (view self.new.ledger) }
        ensures same { self.new.ledger.bank ≡ self.old.ledger.bank }
    {
        self.ledger.enter(head, body)
    }

    // Strikes the last rule, and answers how many are left.
    pub fn withdraw(&mut self) -> Result<usize, Refusal>
        ensures step { Step (B.meaning self.old.ledger.bank) (view self.old.ledger) withdraw (answer_of result) (view self.new.ledger) }
        ensures same { self.new.ledger.bank ≡ self.old.ledger.bank }
    {
        self.ledger.withdraw()
    }

    // Adds a page of a set with the ranks of the rounds, and answers its number.
    pub fn file(&mut self, way: Way, set: Set) -> Result<usize, Refusal>
        ensures step { Step (B.meaning self.old.ledger.bank) (view self.old.ledger) (file (way_of way) set) (answer_of result) (view self.new.ledger) }
        ensures published { Accepted (answer_of result)
            ↔ (Free (view self.old.ledger) × AnswerSetBy (way_of way) (program (B.meaning self.old.ledger.bank) (view self.old.ledger).rules) set) }
        ensures same { self.new.ledger.bank ≡ self.old.ledger.bank }
    {
        self.ledger.file(way, set)
    }

    // Adds a page of a set with the given ranks, if they bear it, and answers its number.
    pub fn lodge(&mut self, way: Way, set: Set, ranks: &[u8]) -> Result<usize, Refusal>
        ensures step { Step (B.meaning self.old.ledger.bank) (view self.old.ledger) (lodge (way_of way) set ranks.now) (answer_of result) (view self.new.ledger) }
        ensures same { self.new.ledger.bank ≡ self.old.ledger.bank }
    {
        self.ledger.lodge(way, set, ranks)
    }

    // Writes a page's 64 ranks in front of the caller's memory, and tells its way, its set and on how many rules it rests.
    pub fn page(&self, number: usize, memory: &mut [u8]) -> Result<Summary, Refusal>
        ensures { Shown (view self.now.ledger) number memory.old result memory.new }
    {
        self.ledger.page(number, memory)
    }

    // Lists the rules that a set breaks in the caller's memory, lowest first.
    pub fn breaches(&self, set: Set, places: &mut [Breach]) -> Listing<Breach>
        ensures { (items : List Breach) × Breaches (B.meaning self.now.ledger.bank) set 0 (view self.now.ledger).rules items × Lists items places.old result places.new }
    {
        self.ledger.breaches(set, places)
    }

    // The lowest answer set by that way that is not below `start`, and how many sets drawn from the heads were tried for it.
    pub fn next(&self, way: Way, start: Set) -> Result<(Set, usize), Refusal>
        ensures found { MatchResult result
            (λ p. Found (B.meaning self.now.ledger.bank) (way_of way) (view self.now.ledger).rules start p.0 p.1)
            (λ e. Refused (B.meaning self.now.ledger.bank) (way_of way) (view self.now.ledger).rules start e) }
        ensures published { MatchResult result
            (λ p. LowestAnswer (B.meaning self.now.ledger.bank) (way_of way) (view self.now.ledger).rules start p.0)
            (λ e. number e ≡ 28 → NoAnswer (B.meaning self.now.ledger.bank) (way_of way) (view self.now.ledger).rules start) }
    {
        self.ledger.next(way, start)
    }

    // Lists the answer sets by that way that are not below `start` in the caller's memory, lowest first.
    pub fn gather(&self, way: Way, start: Set, places: &mut [Set]) -> Result<Listing<Set>, Refusal>
        ensures { MatchResult result
            (λ listing. Gathers (B.meaning self.now.ledger.bank) (way_of way) (view self.now.ledger).rules start places.old listing places.new)
            (λ e. Says e 27 [] × HasManyHeads (view self.now.ledger).rules × (places.new ≡ places.old)) }
    {
        self.ledger.gather(way, start, places)
    }
}
