ghost use Rattle.std.specs.Prelude.{map, Decides};
ghost use Rattle.std.specs.List.{AllByRecursion};
ghost use Rattle.answer_sets.specs.Rules.{Carried};
ghost use Rattle.rules.specs.Shapes.{way_of, entry_of};

use crate::keeping::meets_at;
use banks::bank::Bank;
use rules::entry::Entry;
use rules::way::Way;
use sets::span::Span;

// Bank and way stay parameters here: what carries an entry asks for no rules, and a program without them would be no plainer.

// Whether an entry is carried over a span.
pub fn carried<B: Bank>(bank: &B, way: Way, e: Entry, span: Span) -> bool
    ensures { Decides result (Carried (B.meaning bank.now) (way_of way) (entry_of e) span.lower span.upper) }
{
    if !e.negated {
        return bank.always(e.condition, span);
    }
    match way {
        Way::Complement => bank.never(e.condition, span),
        Way::Reduct => !meets_at(bank, e.condition, span.upper()),
    }
}

// Whether every entry of a body is carried over a span.
pub fn all_carried<B: Bank>(bank: &B, way: Way, body: &[Entry], span: Span) -> bool
    ensures { Decides result (AllByRecursion (λ e. Carried (B.meaning bank.now) (way_of way) e span.lower span.upper) (map entry_of body.now)) }
{
    body.iter().all(|e| carried(bank, way, *e, span))
}
