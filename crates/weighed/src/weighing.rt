ghost use Rattle.std.specs.Prelude.{◌≡◌, ◌+◌, ◌-◌, ◌≤◌, not, ◌&&◌, ◌||◌, length, Decides};
ghost use Rattle.std.proofs.Props.{props};
ghost use Rattle.measures.specs.Scales.{Allowed, Total, Compared};
ghost use Rattle.sets.specs.Sets.{◌∩◌, size};
ghost use Rattle.sets.specs.Walks.{decisions};
ghost use Rattle.weighed.specs.Extremes.{toward, settled, extreme};
ghost use Rattle.weighed.specs.Tables.{Sound, row as row_of};
ghost use Rattle.weighed.specs.Totals.{Hits, Misses};

use crate::condition::WeighedCondition;
use crate::end::End;
use measures::measure::Measure;
use sets::decision::Decision;
use sets::decisions::{Decisions, lowest};
use sets::set::{Set, contains, without};
use sets::span::Span;

// What is asked of a condition: whether the sets of a span bring their totals between two bounds, which are held as totals. The decisions
// of `domain` have a weight each in `row`.
#[derive(Drop)]
pub(crate) struct Weighing<'a, M: Measure> {
    span: Span,
    domain: Set,
    row: &'a [M::Raw],
    low: M,
    high: M,
    ghost few: { length row.now ≤ 12 },
    ghost allowed: { Allowed M.scale row.now } by { Prim.hlevel props },
    ghost compared_low: { ∥ Compared M.scale low ∥₁ },
    ghost compared_high: { ∥ Compared M.scale high ∥₁ },
}

impl<'a, M: Measure> Weighing<'a, M> {
    // A condition of valid tables over a span.
    pub(crate) fn new(
        c: &WeighedCondition<M::Raw>,
        weights: &'a [M::Raw],
        span: Span,
    ) -> Weighing<'a, M>
        requires { Sound M.scale weights.now c.now }
        ensures lower { result.span.lower ≡ span.lower ∩ c.now.domain }
        ensures upper { result.span.upper ≡ span.upper ∩ c.now.domain }
        ensures domain { result.domain ≡ c.now.domain }
        ensures row { result.row.now ≡ row_of c.now weights.now }
        ensures low { result.low ≡ M.scale.bound c.now.low }
        ensures high { result.high ≡ M.scale.bound c.now.high }
    {
        Weighing {
            span: span.cut(c.domain),
            domain: c.domain,
            row: c.row_in(weights),
            low: M::bound_of(c.low),
            high: M::bound_of(c.high),
        }
    }

    // A total after one decision, with that decision's weight.
    fn settle(&self, end: End, d: Decision, t: M, w: M::Raw) -> M
        ensures { result ≡ settled M.scale (toward end M.scale) self.now.span.lower self.now.span.upper d.place t w }
    {
        if contains(self.span.lower(), d) {
            return t.with(w);
        }
        if contains(self.span.upper(), d) {
            return end.nearer(t, t.with(w));
        }
        t
    }

    // The least or greatest total over the sets of the span, from a total to start with, for the decisions of a domain with a weight each.
    fn furthest_from(&self, end: End, domain: Set, row: &[M::Raw], start: M) -> M
        ensures { let g = self.now in result ≡ extreme M.scale (toward end M.scale) g.span.lower g.span.upper (decisions domain) row.now start }
    {
        let mut t = start;
        for (d, w) in Decisions::of(domain).zip(row) {
            t = self.settle(end, d, t, *w);
        }
        t
    }

    // The same for all decisions of the condition, from nothing on.
    fn furthest(&self, end: End) -> M
        ensures { let g = self.now in result ≡ extreme M.scale (toward end M.scale) g.span.lower g.span.upper (decisions g.domain) g.row.now M.scale.nothing }
    {
        self.furthest_from(end, self.domain, self.row, M::none())
    }

    // Whether the least total is not below the lower bound, and the greatest not above the upper one.
    fn is_enclosed(&self) -> bool
        ensures { let g = self.now in result ≡ (M.scale.le g.low (extreme M.scale (toward End.Least M.scale) g.span.lower g.span.upper (decisions g.domain) g.row.now M.scale.nothing)
            && M.scale.le (extreme M.scale (toward End.Greatest M.scale) g.span.lower g.span.upper (decisions g.domain) g.row.now M.scale.nothing) g.high) }
    {
        self.low.not_above(self.furthest(End::Least))
            && self.furthest(End::Greatest).not_above(self.high)
    }

    // Whether every set of the span brings the total between the bounds: the least and the greatest total tell.
    pub(crate) fn hits(&self) -> bool
        ensures { let g = self.now in Decides result (Hits M.scale g.span.lower g.span.upper g.low g.high (decisions g.domain) g.row.now M.scale.nothing) }
    {
        self.is_enclosed()
    }

    // Whether the least total from t on is above the upper bound, or the greatest below the lower one.
    fn is_apart(&self, domain: Set, row: &[M::Raw], t: M) -> bool
        ensures { let g = self.now in result ≡ (not (M.scale.le (extreme M.scale (toward End.Least M.scale) g.span.lower g.span.upper (decisions domain) row.now t) g.high)
            || not (M.scale.le g.low (extreme M.scale (toward End.Greatest M.scale) g.span.lower g.span.upper (decisions domain) row.now t))) }
    {
        let least = self.furthest_from(End::Least, domain, row, t);
        if !least.not_above(self.high) {
            return true;
        }
        let greatest = self.furthest_from(End::Greatest, domain, row, t);
        !self.low.not_above(greatest)
    }

    // Whether no set of the span brings the total t between the bounds: t has the weights of the decisions that are behind, and those of
    // the domain are to come, with a weight each in the row. A branch whose least and greatest totals can't meet the bounds is cut off.
    fn misses_from(&self, domain: Set, row: &[M::Raw], t: M) -> bool
        requires few { length row.now ≤ 12 }
        requires allowed { Allowed M.scale row.now }
        requires started { Total M.scale (12 - length row.now) t }
        ensures { let g = self.now in Decides result (Misses M.scale g.span.lower g.span.upper g.low g.high (decisions domain) row.now t) }
    {
        if self.is_apart(domain, row, t) {
            return true;
        }
        let Some(d) = lowest(domain) else {
            return false;
        };
        let Some((w, tail)) = row.split_first() else {
            return false;
        };
        let rest = without(domain, d);
        (contains(self.span.lower(), d) || self.misses_from(rest, tail, t))
            && (!contains(self.span.upper(), d) || self.misses_from(rest, tail, t.with(*w)))
    }

    // Whether no set of the span brings the total between the bounds.
    pub(crate) fn misses(&self) -> bool
        ensures { let g = self.now in Decides result (Misses M.scale g.span.lower g.span.upper g.low g.high (decisions g.domain) g.row.now M.scale.nothing) }
    {
        self.misses_from(self.domain, self.row, M::none())
    }
}
