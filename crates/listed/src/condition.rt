// One line of a table of listed conditions: a domain, and where its sets stand in the row of all sets. A place and a length, and no slice,
// since this is the format of the caller's tables.
#[derive(Clone, Copy, Default)]
pub struct ListedCondition {
    pub domain: u64,
    pub first: usize,
    pub len: usize,
}
