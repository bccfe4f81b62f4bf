ghost use Rattle.measures.specs.Kilos.{kilos};
ghost use Rattle.measures.specs.KiloLaws.{kilo_laws};

use crate::kilo::Kilo;
use crate::measure::Measure;

// The most that a weight is above or below 0.
const MAX_WEIGHT: i32 = 1_000_000;

// Sums that stop at the ends of 32 bits.
impl Measure for Kilo {
    type Raw = i32;

    ghost scale = { kilos };

    ghost lawful = { kilo_laws };

    fn is_weight(w: i32) -> bool {
        (-MAX_WEIGHT..=MAX_WEIGHT).contains(&w)
    }

    fn is_bound(b: i32) -> bool {
        true
    }

    fn bound_of(b: i32) -> Kilo {
        Kilo { value: b }
    }

    fn none() -> Kilo {
        Kilo { value: 0 }
    }

    fn with(self, w: i32) -> Kilo {
        Kilo {
            value: self.value.saturating_add(w),
        }
    }

    fn not_above(self, other: Kilo) -> bool {
        self <= other
    }
}
