ghost use Rattle.std.specs.Prelude.{◌≡◌, ◌<◌, ◌≤◌, MatchOption};

// A decision: a number from 0 to 63, by which a block's fruit goes to a line.
#[derive(Clone, Copy, Debug, PartialEq, Eq, PartialOrd, Ord)]
pub struct Decision {
    place: u8,
    ghost small: { place < 64 },
}

impl Decision {
    // The decision with this number, if there is one.
    pub fn new(place: u8) -> Option<Decision>
        ensures { MatchOption result (64 ≤ place) (λ d. d.place ≡ place) }
    {
        if place < 64 {
            Some(Decision { place })
        } else {
            None
        }
    }

    pub fn place(self) -> u8
        ensures { result ≡ self.place }
    {
        self.place
    }
}
