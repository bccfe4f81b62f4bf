ghost use Rattle.std.specs.Prelude.{◌≡◌, [], ◌∷◌, MatchOption};
ghost use Rattle.refusals.specs.Numbers.{number, told};

use crate::refusal::Refusal;

impl Refusal {
    // The number by which the refusal is known.
    pub fn number(self) -> u8
        ensures { result ≡ number self }
    {
        match self {
            Refusal::BadHead => 11,
            Refusal::LongBody => 12,
            Refusal::NoCondition => 13,
            Refusal::NoWay => 14,
            Refusal::BadRanks => 15,
            Refusal::BadTables => 17,
            Refusal::BadLine => 18,
            Refusal::BadFrame => 19,
            Refusal::RulesFull => 21,
            Refusal::PagesFull => 22,
            Refusal::Breaks(_) => 23,
            Refusal::Unborne => 24,
            Refusal::NoRule => 25,
            Refusal::RuleHeld => 26,
            Refusal::ManyHeads => 27,
            Refusal::NoSet(_) => 28,
            Refusal::ShortMemory(_) => 30,
            Refusal::NoPage => 31,
        }
    }

    // The value that is told with the refusal, if one is.
    pub fn told(self) -> Option<usize>
        ensures { MatchOption result (told self ≡ []) (λ n. told self ≡ n ∷ []) }
    {
        match self {
            Refusal::Breaks(rule) => Some(rule),
            Refusal::NoSet(tried) => Some(tried),
            Refusal::ShortMemory(needed) => Some(needed),
            _ => None,
        }
    }
}
