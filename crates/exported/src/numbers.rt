use listed::condition::ListedCondition;

// A condition by its numbers, as the interface for C lays them out: its domain, and where its sets stand in the row of all sets.
#[repr(C)]
#[derive(Clone, Copy)]
pub struct ConditionNumbers {
    pub domain: u64,
    pub first: usize,
    pub len: usize,
}

impl From<&ConditionNumbers> for ListedCondition {
    ghost use Rattle.std.specs.Prelude.{◌≡◌};
    ghost use Rattle.exported.specs.Numbered.{line};

    ghost from_gives = { λ numbers c. c ≡ line numbers.now };

    fn from(c: &ConditionNumbers) -> ListedCondition {
        ListedCondition {
            domain: c.domain,
            first: c.first,
            len: c.len,
        }
    }
}

// A rule by its numbers, as the interface for C lays them out: its head, and the first `len` of its body's places.
#[repr(C)]
#[derive(Clone, Copy)]
pub struct RuleNumbers {
    pub head: u8,
    pub len: u8,
    pub body: [u16; 8],
}

// The set that a search found, and how many it tried: a C caller has no tuple.
#[repr(C)]
#[derive(Clone, Copy)]
pub struct FoundNumbers {
    pub set: u64,
    pub tried: usize,
}
