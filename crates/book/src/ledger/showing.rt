ghost use Rattle.std.specs.Prelude.{◌≡◌, ◌<◌, ◌≤◌, ◌++◌, length, drop, MatchBool};
ghost use Rattle.book.specs.Looking.{Shown};
ghost use Rattle.book.specs.View.{view};

use crate::ledger::Ledger;
use crate::summary::Summary;
use banks::bank::Bank;
use judge::ranks::Ranks;
use refusals::refusal::Refusal;

// The number of ranks of a page.
const RANKS: usize = 64;

// Whether the memory has too few places for the ranks.
fn is_short(memory: &[u8]) -> bool
    ensures { MatchBool result (length memory.now < 64) (64 ≤ length memory.now) }
{
    memory.len() < RANKS
}

// Writes the ranks in the front of the memory.
fn write_ranks(memory: &mut [u8], ranks: &Ranks)
    requires { 64 ≤ length memory.old }
    ensures { memory.new ≡ ranks.now.bytes ++ drop 64 memory.old }
{
    memory[..RANKS].copy_from_slice(ranks.as_slice());
}

impl<B: Bank> Ledger<B> {
    pub(crate) fn page(&self, number: usize, memory: &mut [u8]) -> Result<Summary, Refusal>
        ensures { Shown (view self.now) number memory.old result memory.new }
    {
        if is_short(memory) {
            return Err(Refusal::ShortMemory(RANKS));
        }
        let Some(page) = self.pages.as_slice().get(number) else {
            return Err(Refusal::NoPage);
        };
        write_ranks(memory, &page.ranks);
        Ok(Summary::from(page))
    }
}
