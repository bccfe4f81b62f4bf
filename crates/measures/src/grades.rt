ghost use Rattle.measures.specs.Grades.{grades};
ghost use Rattle.measures.specs.GradeLaws.{grade_laws};

use crate::grade::Grade;
use crate::measure::Measure;

// The greatest grade.
impl Measure for Grade {
    type Raw = u8;

    ghost scale = { grades };

    ghost lawful = { grade_laws };

    fn is_weight(w: u8) -> bool {
        true
    }

    fn is_bound(b: u8) -> bool {
        true
    }

    fn bound_of(b: u8) -> Grade {
        Grade { value: b }
    }

    fn none() -> Grade {
        Grade { value: 0 }
    }

    fn with(self, w: u8) -> Grade {
        Grade {
            value: self.value.max(w),
        }
    }

    fn not_above(self, other: Grade) -> bool {
        self <= other
    }
}
