ghost use Rattle.std.specs.Prelude.{◌≡◌, MatchResult};
ghost use Rattle.refusals.specs.Numbers.{number};
ghost use Rattle.rules.specs.Shapes.{way_of, rules_of};
ghost use Rattle.search.specs.Search.{Found, Refused, LowestAnswer, NoAnswer};

use crate::drawing::draw;
use crate::first::first_borne;
use banks::bank::Bank;
use judge::program::Program;
use refusals::refusal::Refusal;
use sets::set::Set;

// The first set not below `start`, of those drawn from the heads of the rules, that some ranks bear by that way, and how many were tried: the
// lowest answer set that is not below `start`.
pub fn next_set<B: Bank>(program: &Program<B>, start: Set) -> Result<(Set, usize), Refusal>
    ensures found { MatchResult result
        (λ p. Found (B.meaning program.now.bank.now) (way_of program.now.way) (rules_of program.now.rules.now) start p.0 p.1)
        (λ e. Refused (B.meaning program.now.bank.now) (way_of program.now.way) (rules_of program.now.rules.now) start e) }
    ensures published { MatchResult result
        (λ p. LowestAnswer (B.meaning program.now.bank.now) (way_of program.now.way) (rules_of program.now.rules.now) start p.0)
        (λ e. number e ≡ 28 → NoAnswer (B.meaning program.now.bank.now) (way_of program.now.way) (rules_of program.now.rules.now) start) }
{
    let from = draw(program.rules, start)?;
    let stop = first_borne(program, from);
    match stop.found {
        Some(set) => Ok((set, stop.tried)),
        None => Err(Refusal::NoSet(stop.tried)),
    }
}
