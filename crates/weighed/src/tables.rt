ghost use Rattle.std.specs.Prelude.{◌≡◌, true, Decides};
ghost use Rattle.std.specs.List.{AllByRecursion};
ghost use Rattle.measures.specs.Scales.{Allowed};
ghost use Rattle.weighed.specs.Tables.{Sound, Valid};

use crate::condition::WeighedCondition;
use banks::tables::{MAX_CONDITIONS, narrow, placed};
use measures::measure::Measure;
use sets::set::count;

// Whether each figure of a row may be a weight.
fn all_weights<M: Measure>(row: &[M::Raw]) -> bool
    ensures { Decides result (Allowed M.scale row.now) }
{
    row.iter().all(|w| M::is_weight(*w))
}

// Whether the measure allows two bounds and a row of weights.
fn allows<M: Measure>(low: M::Raw, high: M::Raw, row: &[M::Raw]) -> bool
    ensures { Decides result ((M.scale.fair low ≡ true) × (M.scale.fair high ≡ true) × Allowed M.scale row.now) }
{
    M::is_bound(low) && M::is_bound(high) && all_weights::<M>(row)
}

fn sound<M: Measure>(c: &WeighedCondition<M::Raw>, weights: &[M::Raw]) -> bool
    ensures { Decides result (Sound M.scale weights.now c.now) }
{
    narrow(c.domain)
        && placed(c.first, count(c.domain) as usize, weights.len())
        && allows::<M>(c.low, c.high, c.row_in(weights))
}

fn all_sound<M: Measure>(conditions: &[WeighedCondition<M::Raw>], weights: &[M::Raw]) -> bool
    ensures { Decides result (AllByRecursion (Sound M.scale weights.now) conditions.now) }
{
    conditions.iter().all(|c| sound::<M>(c, weights))
}

// Whether the tables are valid, read whole.
pub(crate) fn valid<M: Measure>(conditions: &[WeighedCondition<M::Raw>], weights: &[M::Raw]) -> bool
    ensures { Decides result (Valid M.scale conditions.now weights.now) }
{
    conditions.len() <= MAX_CONDITIONS && all_sound::<M>(conditions, weights)
}
