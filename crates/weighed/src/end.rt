ghost use Rattle.std.specs.Prelude.{◌≡◌};
ghost use Rattle.weighed.specs.Extremes.{toward, nearer as nearest};

use measures::measure::Measure;

// An end of a range of totals. A closure in its place is no plainer: each clause on a carried total would have to say that the closure
// compares as `toward` does at one of the two.
#[derive(Clone, Copy)]
pub enum End {
    Least,
    Greatest,
}

impl End {
    // Whether t is not further than u from the end.
    fn is_toward<M: Measure>(self, t: M, u: M) -> bool
        ensures { result ≡ toward self M.scale t u }
    {
        match self {
            End::Least => t.not_above(u),
            End::Greatest => u.not_above(t),
        }
    }

    // The one of two totals that lies nearer the end.
    pub(crate) fn nearer<M: Measure>(self, t: M, u: M) -> M
        ensures { result ≡ nearest (toward self M.scale) t u }
    {
        if self.is_toward(t, u) { t } else { u }
    }
}
