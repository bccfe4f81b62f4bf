ghost use Rattle.std.specs.Prelude.{◌≡◌, ℕ, ◌<◌, ◌⊎◌, ◌↔◌, Decides};
ghost use Rattle.sets.specs.Sets.{◌∈◌, size};
ghost use Rattle.answer_sets.specs.Rules.{decision};
ghost use Rattle.rules.specs.Shapes.{head_of, rules_of};
ghost use Rattle.search.specs.Search.{Heads};

use rules::head::Head;
use rules::rule::Rule;
use sets::set::{Set, count, with};

// The most different heads whose sets are searched.
const MAX_HEADS: u32 = 16;

// The set with one rule's head, if the rule has one.
fn with_head(set: Set, head: Head) -> Set
    ensures { (d : ℕ) → (d ∈ result) ↔ ((d ∈ set) ⊎ (head_of head ≡ decision d)) }
{
    match head {
        Some(d) => with(set, d),
        None => set,
    }
}

// The heads of the rules.
pub(crate) fn heads_of(rules: &[Rule]) -> Set
    ensures { Heads (rules_of rules.now) result }
{
    let mut heads = 0;
    for rule in rules {
        heads = with_head(heads, rule.head());
    }
    heads
}

// Whether there are more heads than a search may have.
pub(crate) fn too_many(heads: Set) -> bool
    ensures { Decides result (16 < size heads) }
{
    count(heads) > MAX_HEADS
}
