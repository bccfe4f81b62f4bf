ghost use Rattle.std.specs.Prelude.{◌≡◌, ℕ, ◌<◌, ◌≤◌, ◌&&◌, length, replicate, if◌then◌else◌, Decides, ◌≢◌, nat_eq, nat_lt, slice_index, slice_set};
ghost use Rattle.std.specs.Bool.{MatchBool};
ghost use Rattle.sets.specs.Sets.{has, ◌∈◌};
ghost use Rattle.answer_sets.specs.Rules.{rank, below};

use sets::decision::Decision;
use sets::decisions::Decisions;
use sets::set::{Set, with};
use std::error::Error;
use std::fmt;

// A rank for each decision, 0 for none: an array, since there is one for each of the 64 and nothing here may allocate.
#[derive(Clone, Copy, Debug, PartialEq, Eq)]
pub struct Ranks {
    bytes: [u8; 64],
    ghost all: { length bytes ≡ 64 },
}

// So many bytes that they are not one for each decision.
#[derive(Clone, Copy, Debug, PartialEq, Eq)]
pub struct WrongCount(pub usize);

impl fmt::Display for WrongCount {
    ghost use Rattle.std.specs.Prelude.{Some};
    ghost use Rattle.judge.specs.Shown.{wrong_count_text};

    ghost output = { λ wrong. Some (wrong_count_text wrong) };

    fn fmt<W: fmt::Write>(&self, f: &mut fmt::Formatter<W>) -> fmt::Result {
        write!(f, "64 ranks are wanted, and not {}", self.0)
    }
}

impl Error for WrongCount {}

impl TryFrom<&[u8]> for Ranks {
    type Error = WrongCount;

    ghost use Rattle.judge.specs.Shown.{RanksOf};

    ghost try_from_gives = { λ bytes answer. RanksOf bytes.now answer };

    fn try_from(bytes: &[u8]) -> Result<Ranks, WrongCount> {
        if bytes.len() != 64 {
            return Err(WrongCount(bytes.len()));
        }
        let mut ranks = Ranks::none();
        ranks.bytes.copy_from_slice(bytes);
        Ok(ranks)
    }
}

impl Ranks {
    // No decision has a rank.
    pub fn none() -> Ranks
        ensures { result.bytes ≡ replicate 64 0 }
    {
        Ranks { bytes: [0; 64] }
    }

    // The rank of a decision.
    pub fn of(&self, d: Decision) -> u8
        ensures { result ≡ rank self.now.bytes d.place }
    {
        self.bytes[usize::from(d.place())]
    }

    // Gives a rank to a decision.
    pub fn give(&mut self, d: Decision, rank: u8)
        ensures { self.new.bytes ≡ slice_set self.old.bytes d.place rank }
    {
        let at = usize::from(d.place());
        self.bytes[at] = rank;
    }

    // The ranks as bytes, by the numbers of the decisions.
    pub fn as_slice(&self) -> &[u8]
        ensures { result.now ≡ self.now.bytes }
    {
        &self.bytes
    }

    // Whether a decision has a rank.
    fn is_ranked(&self, d: Decision) -> bool
        ensures { MatchBool result ((1 ≤ rank self.now.bytes d.place) × (rank self.now.bytes d.place ≤ 255)) (rank self.now.bytes d.place ≡ 0) }
    {
        self.of(d) != 0
    }

    // Whether each decision of the set has a rank.
    pub(crate) fn covers(&self, set: Set) -> bool
        ensures { Decides result ((d : ℕ) → d ∈ set → rank self.now.bytes d ≢ 0) }
    {
        Decisions::of(set).all(|d| self.is_ranked(d))
    }

    // Whether a decision has a lower rank than another.
    fn is_lower(&self, d: Decision, other: Decision) -> bool
        ensures { result ≡ nat_lt (rank self.now.bytes d.place) (rank self.now.bytes other.place) }
    {
        self.of(d) < self.of(other)
    }

    // The decisions of the set with a lower rank than b.
    pub(crate) fn lower(&self, set: Set, b: Decision) -> Set
        ensures { result ≡ below set self.now.bytes b.place }
    {
        Decisions::of(set)
            .filter(|d| self.is_lower(*d, b))
            .fold(0, with)
    }

    // Gives a rank to a decision that has none.
    fn give_first(&mut self, d: Decision, rank: u8)
        ensures { self.new.bytes ≡ (if nat_eq (slice_index self.old.bytes d.place) 0 then slice_set self.old.bytes d.place rank else self.old.bytes) }
    {
        if self.of(d) == 0 {
            self.give(d, rank);
        }
    }

    // Gives a rank to each decision of the set that has none.
    pub(crate) fn stamp(&mut self, set: Set, rank: u8)
        ensures { (d : ℕ) → d < 64 → slice_index self.new.bytes d ≡ (if nat_eq (slice_index self.old.bytes d) 0 && has set d then rank else slice_index self.old.bytes d) }
    {
        for d in Decisions::of(set) {
            self.give_first(d, rank);
        }
    }
}
