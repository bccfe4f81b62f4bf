ghost use Rattle.banks.specs.Standings.{Stands};

use crate::bank::Bank;
use crate::standing::Standing;
use sets::span::Span;

// How condition k stands where the lower set of the span is decided and the upper one is all that may still be.
pub fn standing_of<B: Bank>(bank: &B, k: u16, span: Span) -> Standing
    ensures { Stands (B.meaning bank.now) k span.lower span.upper result }
{
    if bank.always(k, span) {
        Standing::Met
    } else if bank.never(k, span) {
        Standing::Lost
    } else {
        Standing::Open
    }
}
