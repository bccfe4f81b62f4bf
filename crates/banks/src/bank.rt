ghost use Rattle.std.specs.Prelude.{◌≡◌, Decides};
ghost use Rattle.banks.specs.Meaning.{Meaning, Lawful, Always, Never};

use sets::set::Set;
use sets::span::Span;

// A bank of conditions, by what it means. It answers four questions, changes nothing and refuses none.
pub trait Bank {
    ghost meaning: { Self → Meaning };

    // The number of conditions.
    fn count(&self) -> u16
        ensures { result ≡ (meaning self.now).count };

    // The decisions on which condition k depends.
    fn domain(&self, k: u16) -> Set
        ensures { result ≡ (meaning self.now).domain k };

    // Whether condition k holds at every set of the span.
    fn always(&self, k: u16, span: Span) -> bool
        ensures { Decides result (Always (meaning self.now) k span.lower span.upper) };

    // Whether condition k holds at no set of the span.
    fn never(&self, k: u16, span: Span) -> bool
        ensures { Decides result (Never (meaning self.now) k span.lower span.upper) };

    // What each bank owes beside its answers.
    ghost lawful: { (b : Self) → Lawful (meaning b) };
}
