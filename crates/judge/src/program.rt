use banks::bank::Bank;
use rules::rule::Rule;
use rules::way::Way;

// Rules over a bank, with the way in which "not" is read in them. It has no model, which would be no plainer: contracts name the meaning of the
// bank, the way and the rules in the words of the theory, each by its field.
#[derive(Drop)]
pub struct Program<'a, B: Bank> {
    pub bank: &'a B,
    pub way: Way,
    pub rules: &'a [Rule],
}
