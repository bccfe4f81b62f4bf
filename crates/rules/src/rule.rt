ghost use Rattle.std.specs.Prelude.{◌≡◌, ◌<◌, [], None, length, MatchOption};
ghost use Rattle.rows.specs.Rows.{held};

use crate::entry::Entry;
use crate::head::Head;
use rows::row::Row;

// The most entries that a body may have.
pub const MAX_BODY: usize = 8;

// What takes the places of a body that are not filled.
pub const BLANK: Entry = Entry {
    condition: 0,
    negated: false,
};

// The entries of a rule.
pub type Body = Row<Entry, MAX_BODY>;

#[derive(Clone, Copy)]
pub struct Rule {
    head: Head,
    body: Body,
}

impl Rule {
    // A rule with this head and body, unless the body is too long.
    pub fn new(head: Head, body: &[Entry]) -> Option<Rule>
        ensures { MatchOption result (8 < length body.now) (λ x. (x.head ≡ head) × (held x.body ≡ body.now)) }
    {
        let body = Row::of(BLANK, body)?;
        Some(Rule { head, body })
    }

    // A rule with this head and body.
    pub fn of(head: Head, body: Body) -> Rule
        ensures { (result.head ≡ head) × (result.body ≡ body) }
    {
        Rule { head, body }
    }

    // The rule with no head and no entries, which every set breaks.
    pub fn empty() -> Rule
        ensures { (result.head ≡ None) × (held result.body ≡ []) }
    {
        Rule {
            head: None,
            body: Row::new(BLANK),
        }
    }

    pub fn head(&self) -> Head
        ensures { result ≡ self.now.head }
    {
        self.head
    }

    pub fn body(&self) -> &[Entry]
        ensures { result.now ≡ held self.now.body }
    {
        self.body.as_slice()
    }
}
