ghost use Rattle.std.specs.Prelude.{[], MatchResult};
ghost use Rattle.refusals.specs.Numbers.{Says};
ghost use Rattle.rules.specs.Shapes.{rules_of};
ghost use Rattle.search.specs.Ahead.{Drawn};
ghost use Rattle.search.specs.Search.{HasManyHeads};

use crate::heads::{heads_of, too_many};
use refusals::refusal::Refusal;
use rules::rule::Rule;
use sets::set::Set;
use sets::walk::Walk;

// The walk through the sets drawn from the heads of the rules, from the first that is not below `start`.
pub(crate) fn draw(rules: &[Rule], start: Set) -> Result<Option<Walk>, Refusal>
    ensures { MatchResult result (λ walk. Drawn (rules_of rules.now) start walk) (λ e. Says e 27 [] × HasManyHeads (rules_of rules.now)) }
{
    let heads = heads_of(rules);
    if too_many(heads) {
        return Err(Refusal::ManyHeads);
    }
    Ok(Walk::seek(heads, start))
}
