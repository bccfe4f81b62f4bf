ghost use Rattle.std.specs.Prelude.{◌≡◌, MatchResult};
ghost use Rattle.refusals.specs.Numbers.{number};
ghost use Rattle.listed.specs.Tables.{listed};
ghost use Rattle.rules.specs.Shapes.{way_of};
ghost use Rattle.search.specs.Search.{LowestAnswer, NoAnswer};
ghost use Rattle.exported.specs.Numbered.{bank, way_numbered, rules_numbered};

use crate::building::{rules_of, table_of, way_named};
use crate::numbers::{ConditionNumbers, FoundNumbers, RuleNumbers};
use judge::program::Program;
use listed::bank::ListedBank;
use listed::condition::ListedCondition;
use refusals::refusal::Refusal;
use rules::way::Way;
use search::next::next_set;
use sets::set::Set;

// The lowest answer set that is not below `start`, over these tables and under the rules of these numbers, and how many sets were tried.
fn search_over<'a>(
    lines: &'a [ListedCondition],
    sets: &'a [Set],
    rules: &[RuleNumbers],
    way: Way,
    start: Set,
) -> Result<(Set, usize), Refusal>
    ensures { MatchResult result
        (λ p. LowestAnswer (listed lines.now sets.now) (way_of way) (rules_numbered rules.now) start p.0)
        (λ e. number e ≡ 28 → NoAnswer (listed lines.now sets.now) (way_of way) (rules_numbered rules.now) start) }
{
    let mut loaded = ListedBank::new();
    loaded.load(lines, sets)?;
    let list = rules_of(&loaded, rules)?;
    let program = Program {
        bank: &loaded,
        way,
        rules: list.as_slice(),
    };
    next_set(&program, start)
}

// The same with the conditions and the way by their numbers too.
fn search_numbered(
    conditions: &[ConditionNumbers],
    sets: &[Set],
    rules: &[RuleNumbers],
    way: u8,
    start: Set,
) -> Result<(Set, usize), Refusal>
    ensures { MatchResult result
        (λ p. LowestAnswer (bank conditions.now sets.now) (way_numbered way) (rules_numbered rules.now) start p.0)
        (λ e. number e ≡ 28 → NoAnswer (bank conditions.now sets.now) (way_numbered way) (rules_numbered rules.now) start) }
{
    let way = way_named(way)?;
    let table = table_of(conditions)?;
    search_over(table.as_slice(), sets, rules, way, start)
}

// The same for a caller in C or Rust, whose interface has numbers and a place for the answer. It answers 0 where there is such a set, and writes it with the number of sets tried. Else it answers
// the refusal's number, and writes the empty set with the value told: by 28, that there is none, the number of sets tried.
#[unsafe(no_mangle)]
pub extern "C" fn season_next_set(
    conditions: &[ConditionNumbers],
    sets: &[Set],
    rules: &[RuleNumbers],
    way: u8,
    start: Set,
    found: &mut FoundNumbers,
) -> u8
    ensures lowest { result ≡ 0 → LowestAnswer (bank conditions.now sets.now) (way_numbered way) (rules_numbered rules.now) start found.new.set }
    ensures none { result ≡ 28 → NoAnswer (bank conditions.now sets.now) (way_numbered way) (rules_numbered rules.now) start }
{
    match search_numbered(conditions, sets, rules, way, start) {
        Ok((set, tried)) => {
            *found = FoundNumbers { set, tried };
            0
        }
        Err(refusal) => {
            let tried = refusal.told().unwrap_or(0);
            *found = FoundNumbers { set: 0, tried };
            refusal.number()
        }
    }
}
