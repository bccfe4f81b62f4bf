ghost use Rattle.std.specs.Prelude.{◌≡◌};
ghost use Rattle.banks.specs.Beside.{beside};
ghost use Rattle.house.specs.House.{house, listed_part};
ghost use Rattle.listed.specs.Tables.{listed};
ghost use Rattle.measures.specs.Grades.{grades};
ghost use Rattle.measures.specs.Kilos.{kilos};
ghost use Rattle.weighed.specs.Tables.{Valid, weighed};

use crate::tables::{GRADE_WEIGHTS, GRADES, KILO_WEIGHTS, KILOS, LISTED, SETS};
use banks::pair::PairBank;
use listed::bank::ListedBank;
use measures::grade::Grade;
use measures::kilo::Kilo;
use measures::measure::Measure;
use weighed::bank::WeighedBank;
use weighed::condition::WeighedCondition;

// Listed conditions first, then kilos, then grades.
pub type House = PairBank<
    ListedBank<'static>,
    PairBank<WeighedBank<'static, Kilo>, WeighedBank<'static, Grade>>,
>;

fn listed_bank() -> ListedBank<'static>
    ensures { listed result.conditions.now result.sets.now ≡ listed_part }
{
    let mut bank = ListedBank::new();
    let _ = bank.load(&LISTED, &SETS);
    bank
}

// A bank over valid tables: the load is taken.
fn weighed_bank<'a, M: Measure>(
    conditions: &'a [WeighedCondition<M::Raw>],
    weights: &'a [M::Raw],
) -> WeighedBank<'a, M>
    requires { Valid M.scale conditions.now weights.now }
    ensures { weighed M.scale result.conditions.now result.weights.now ≡ weighed M.scale conditions.now weights.now }
{
    let mut bank = WeighedBank::new();
    let _ = bank.load(conditions, weights);
    bank
}

// The house bank; its tables are valid, so every load is taken.
pub fn house_bank() -> House
    ensures { beside (listed result.first.conditions.now result.first.sets.now)
        (beside (weighed kilos result.second.first.conditions.now result.second.first.weights.now)
        (weighed grades result.second.second.conditions.now result.second.second.weights.now)) ≡ house }
{
    let listed = listed_bank();
    let kilos = weighed_bank::<Kilo>(&KILOS, &KILO_WEIGHTS);
    let grades = weighed_bank::<Grade>(&GRADES, &GRADE_WEIGHTS);
    PairBank {
        first: listed,
        second: PairBank {
            first: kilos,
            second: grades,
        },
    }
}
