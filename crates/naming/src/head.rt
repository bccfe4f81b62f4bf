ghost use Rattle.std.specs.Prelude.{◌≡◌, [], MatchResult};
ghost use Rattle.rules.specs.Shapes.{head_of};
ghost use Rattle.refusals.specs.Numbers.{Says};
ghost use Rattle.answer_sets.specs.Naming.{NamesHead, head_named, head_number};

use refusals::refusal::Refusal;
use rules::head::Head;
use sets::decision::Decision;

// The number by which no head is named.
const NO_HEAD: u8 = 255;

// The head that a number names, if it names one. A head is an option of a decision, so the conversion can be no TryFrom.
pub fn head_named(number: u8) -> Result<Head, Refusal>
    ensures { MatchResult result (λ h. NamesHead number × (head_of h ≡ head_named number)) (λ e. Says e 11 [] × (NamesHead number → ⊥)) }
{
    if number == NO_HEAD {
        return Ok(None);
    }
    match Decision::new(number) {
        None => Err(Refusal::BadHead),
        head => Ok(head),
    }
}

// The number by which a head is named; a function for the same reason.
pub fn head_number(head: Head) -> u8
    ensures { result ≡ head_number (head_of head) }
{
    match head {
        Some(d) => d.place(),
        None => NO_HEAD,
    }
}
