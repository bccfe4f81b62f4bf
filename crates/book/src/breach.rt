use rules::head::Head;

// A rule that a set breaks: its number, and its head.
#[derive(Clone, Copy, Debug, PartialEq, Eq)]
pub struct Breach {
    pub rule: usize,
    pub head: Head,
}
