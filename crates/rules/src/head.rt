use sets::decision::Decision;

// The head of a rule: the decision that it gives, or none, where the body must not hold.
pub type Head = Option<Decision>;
