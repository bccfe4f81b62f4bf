ghost use Rattle.std.specs.Prelude.{◌≡◌, [], MatchResult};
ghost use Rattle.refusals.specs.Numbers.{Says};
ghost use Rattle.rules.specs.Shapes.{way_of, rules_of};
ghost use Rattle.search.specs.Gathering.{Gathers};
ghost use Rattle.search.specs.Search.{HasManyHeads};

use crate::drawing::draw;
use crate::first::first_borne;
use banks::bank::Bank;
use judge::program::Program;
use refusals::refusal::Refusal;
use rows::lent::LentList;
use rows::listing::Listing;
use sets::set::Set;

// Lists, in memory that the caller lends, the sets not below `start` that some ranks bear by that way, lowest first. The search ends at the
// first that finds no place. Where it is refused, the memory stays as it was.
pub fn gather_sets<B: Bank>(
    program: &Program<B>,
    start: Set,
    places: &mut [Set],
) -> Result<Listing<Set>, Refusal>
    ensures { MatchResult result
        (λ listing. Gathers (B.meaning program.now.bank.now) (way_of program.now.way) (rules_of program.now.rules.now) start places.old listing places.new)
        (λ e. Says e 27 [] × HasManyHeads (rules_of program.now.rules.now) × (places.new ≡ places.old)) }
{
    let mut ahead = draw(program.rules, start)?;
    let mut list = LentList::new(places);
    let unplaced = 'sets: loop {
        let stop = first_borne(program, ahead);
        let Some(set) = stop.found else {
            break 'sets None;
        };
        if let Err(set) = list.put(set) {
            break 'sets Some(set);
        }
        ahead = stop.ahead;
    };
    Ok(Listing {
        placed: list.len(),
        unplaced,
    })
}
