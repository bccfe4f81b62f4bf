// The answer of a call that lists items in memory that the caller lends: how many it placed, and the first item that found no place, if
// one did not.
#[derive(Clone, Copy, Debug, PartialEq, Eq)]
pub struct Listing<T: Copy> {
    pub placed: usize,
    pub unplaced: Option<T>,
}
