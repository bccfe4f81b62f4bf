ghost use Rattle.std.specs.Prelude.{◌+◌, ◌≤◌, Decides};
ghost use Rattle.sets.specs.Sets.{size};

use sets::set::{Set, count};

// The most conditions that one table may have.
pub const MAX_CONDITIONS: usize = 256;

// The most decisions in a condition's domain.
pub const MAX_DOMAIN: u32 = 12;

// Whether a domain has no more decisions than a condition may have.
pub fn narrow(domain: Set) -> bool
    ensures { Decides result (size domain ≤ 12) }
{
    count(domain) <= MAX_DOMAIN
}

// Whether `len` places from `first` on lie inside a row of `total`; the sum of the two may not fit a number.
pub fn placed(first: usize, len: usize, total: usize) -> bool
    ensures { Decides result (first + len ≤ total) }
{
    first <= total && len <= total - first
}
