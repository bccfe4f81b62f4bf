ghost use Rattle.std.specs.Prelude.{◌≡◌};
ghost use Rattle.measures.specs.Scales.{Scale, Laws};

// Weights, totals of weights and an order of totals.
pub trait Measure: Copy {
    // a weight or a bound as the tables hold it
    type Raw: Copy;

    // what the measure is
    ghost scale: { Scale Self.Raw Self };

    fn is_weight(w: Self::Raw) -> bool
        ensures { result ≡ scale.ok w };

    fn is_bound(b: Self::Raw) -> bool
        ensures { result ≡ scale.fair b };

    // As `From` and `Default` these two would be no plainer: the clauses of neither trait name `scale`, so two laws would have to.
    fn bound_of(b: Self::Raw) -> Self
        ensures { result ≡ scale.bound b };

    fn none() -> Self
        ensures { result ≡ scale.nothing };

    fn with(self, w: Self::Raw) -> Self
        ensures { result ≡ scale.lay self w };

    fn not_above(self, other: Self) -> bool
        ensures { result ≡ scale.le self other };

    ghost lawful: { Laws scale };
}
