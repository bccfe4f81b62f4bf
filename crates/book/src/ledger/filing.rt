ghost use Rattle.std.specs.Prelude.{◌≡◌, ◌≢◌, ◌<◌, length, Decides, MatchResult};
ghost use Rattle.std.specs.List.{AllByRecursion};
ghost use Rattle.answer_sets.specs.Rules.{Keeps, Ranked, Bears, Borne};
ghost use Rattle.answer_sets.specs.Rounds.{Rounds};
ghost use Rattle.refusals.specs.Numbers.{number, told};
ghost use Rattle.refusals.specs.declared.refusal.Refusal.TheVariants.{BadRanks, Unborne};
ghost use Rattle.rows.specs.Rows.{held};
ghost use Rattle.rules.specs.Shapes.{way_of};
ghost use Rattle.account.specs.Account.{file, lodge, PagesWith, Step};
ghost use Rattle.account.specs.Limits.{max_pages};
ghost use Rattle.book.specs.Ready.{Accepts, Refuses, NotPagedFirst, TellsLowest};
ghost use Rattle.book.specs.View.{view, answer_of};

use crate::ledger::Ledger;
use crate::limits::MAX_PAGES;
use crate::page::Page;
use banks::bank::Bank;
use judge::bearing::ranked;
use judge::keeping::lowest_broken;
use judge::ranks::Ranks;
use refusals::refusal::Refusal;
use rules::way::Way;
use sets::set::Set;

// That these bytes are one for each decision, zero exactly outside the set.
fn fitting(bytes: &[u8], set: Set) -> Result<(), Refusal>
    ensures { MatchResult result
        (λ _. Ranked set bytes.now)
        (λ e. (e ≡ BadRanks) × (Ranked set bytes.now → ⊥)) }
{
    if !ranked(bytes, set) {
        return Err(Refusal::BadRanks);
    }
    Ok(())
}

// These bytes as ranks, if they are one for each decision.
fn copied(bytes: &[u8]) -> Result<Ranks, Refusal>
    ensures { MatchResult result
        (λ ranks. ranks.bytes ≡ bytes.now)
        (λ e. (e ≡ BadRanks) × (length bytes.now ≢ 64)) }
{
    Ranks::try_from(bytes).map_err(|_| Refusal::BadRanks)
}

// A page on so many rules.
fn page_on(way: Way, set: Set, ranks: Ranks, rules: usize) -> Page
    ensures { (result.way ≡ way) × (result.«set» ≡ set) × (result.ranks ≡ ranks) × (result.rules ≡ rules) }
{
    Page {
        way,
        set,
        ranks,
        rules,
    }
}

impl<B: Bank> Ledger<B> {
    // Whether a page is free.
    fn has_free_page(&self) -> bool
        ensures { Decides result (length (held self.now.pages) < max_pages) }
    {
        self.pages.len() < MAX_PAGES
    }

    // That the set keeps the rules, or the lowest one that it breaks.
    fn unbroken(&self, set: Set) -> Result<(), Refusal>
        ensures { MatchResult result
            (λ _. AllByRecursion (Keeps (B.meaning self.now.bank) set) (view self.now).rules)
            (λ e. (number e ≡ 23) × TellsLowest (B.meaning self.now.bank) (view self.now) set (told e)) }
    {
        match lowest_broken(&self.bank, self.rules.as_slice(), set) {
            Some(rule) => Err(Refusal::Breaks(rule)),
            None => Ok(()),
        }
    }

    // That a page is free and the set keeps the rules, or why no page can be made of it.
    fn pageable(&self, set: Set) -> Result<(), Refusal>
        ensures { MatchResult result
            (λ _. (length (held self.now.pages) < max_pages) × AllByRecursion (Keeps (B.meaning self.now.bank) set) (view self.now).rules)
            (λ e. NotPagedFirst (B.meaning self.now.bank) (view self.now) set (number e) (told e)) }
    {
        if !self.has_free_page() {
            return Err(Refusal::PagesFull);
        }
        self.unbroken(set)
    }

    // The ranks of the rounds, if some ranks bear the set.
    fn borne_ranks(&self, way: Way, set: Set) -> Result<Ranks, Refusal>
        ensures { MatchResult result
            (λ ranks. Rounds (B.meaning self.now.bank) (way_of way) (view self.now).rules set ranks.bytes)
            (λ e. (e ≡ Unborne) × (Borne (B.meaning self.now.bank) (way_of way) (view self.now).rules set → ⊥)) }
    {
        self.program(way).rank_set(set).ok_or(Refusal::Unborne)
    }

    // The ranks with which a set is to be filed, or why it may not be.
    fn fileable(&self, way: Way, set: Set) -> Result<Ranks, Refusal>
        ensures { MatchResult result
            (λ ranks. (length (held self.now.pages) < max_pages)
            × Accepts (B.meaning self.now.bank) (view self.now) (file (way_of way) set) (length (view self.now).pages)
            (PagesWith (view self.now) (way_of way) set ranks.bytes))
            (Refuses (B.meaning self.now.bank) (view self.now) (file (way_of way) set)) }
    {
        self.pageable(set)?;
        let ranks = self.borne_ranks(way, set)?;
        Ok(ranks)
    }

    // Whether these ranks bear the set.
    fn bears(&self, way: Way, set: Set, ranks: &[u8]) -> bool
        ensures { Decides result (Bears (B.meaning self.now.bank) (way_of way) (view self.now).rules set ranks.now) }
    {
        self.program(way).bears(set, ranks)
    }

    // The ranks with which a set is to be lodged, or why it may not be.
    fn lodgeable(&self, way: Way, set: Set, ranks: &[u8]) -> Result<Ranks, Refusal>
        ensures { MatchResult result
            (λ kept. (length (held self.now.pages) < max_pages)
            × Accepts (B.meaning self.now.bank) (view self.now) (lodge (way_of way) set ranks.now) (length (view self.now).pages)
            (PagesWith (view self.now) (way_of way) set kept.bytes))
            (Refuses (B.meaning self.now.bank) (view self.now) (lodge (way_of way) set ranks.now)) }
    {
        fitting(ranks, set)?;
        self.pageable(set)?;
        if !self.bears(way, set, ranks) {
            return Err(Refusal::Unborne);
        }
        copied(ranks)
    }

    // Puts a page last that rests on all the rules, and answers its number.
    fn add_page(&mut self, way: Way, set: Set, ranks: Ranks) -> usize
        requires { length (held self.old.pages) < max_pages }
        ensures number { result ≡ length (view self.old).pages }
        ensures after { PagesWith (view self.old) (way_of way) set ranks.bytes (view self.new) }
        ensures same { self.new.bank ≡ self.old.bank }
    {
        let at = self.pages.len();
        let page = page_on(way, set, ranks, self.rules.len());
        let _ = self.pages.push(page);
        at
    }

    pub(crate) fn file(&mut self, way: Way, set: Set) -> Result<usize, Refusal>
        ensures step { Step (B.meaning self.old.bank) (view self.old) (file (way_of way) set) (answer_of result) (view self.new) }
        ensures same { self.new.bank ≡ self.old.bank }
    {
        let ranks = self.fileable(way, set)?;
        Ok(self.add_page(way, set, ranks))
    }

    pub(crate) fn lodge(&mut self, way: Way, set: Set, ranks: &[u8]) -> Result<usize, Refusal>
        ensures step { Step (B.meaning self.old.bank) (view self.old) (lodge (way_of way) set ranks.now) (answer_of result) (view self.new) }
        ensures same { self.new.bank ≡ self.old.bank }
    {
        let kept = self.lodgeable(way, set, ranks)?;
        Ok(self.add_page(way, set, kept))
    }
}
