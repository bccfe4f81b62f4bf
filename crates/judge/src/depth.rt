ghost use Rattle.std.specs.Prelude.{◌≡◌, max};
ghost use Rattle.std.specs.List.{fold};
ghost use Rattle.answer_sets.specs.Rounds.{depth};

// The highest of 0 and the ranks.
fn highest(ranks: &[u8]) -> u8
    ensures { result ≡ fold max 0 ranks.now }
{
    ranks.iter().copied().fold(0, u8::max)
}

// The highest rank, or 0 where there is none.
#[tactic(auto, using(crate::proofs::Passing::depth_is))]
pub fn depth_of(ranks: &[u8]) -> u8
    ensures { result ≡ depth ranks.now }
{
    highest(ranks)
}
