ghost use Rattle.std.specs.Prelude.{◌≡◌, ◌-◌, ◌<◌, ◌≤◌, [], ◌∷◌, ◌++◌, length, take, Decides, MatchOption, MatchResult, slice_set};
ghost use Rattle.rows.specs.Rows.{held};

use crate::row::Row;

// Writes one place of an array.
fn write<T: Copy, const N: usize>(items: &mut [T; N], at: usize, x: T)
    requires { at < N }
    ensures { items.new ≡ slice_set items.old at x }
{
    items[at] = x;
}

// An array that begins with these items; `fill` takes the other places.
fn filled<T: Copy, const N: usize>(fill: T, front: &[T]) -> [T; N]
    requires { length front.now ≤ N }
    ensures long { length result ≡ N }
    ensures begins { take (length front.now) result ≡ front.now }
{
    let mut places = [fill; N];
    places[..front.len()].copy_from_slice(front);
    places
}

impl<T: Copy, const N: usize> Row<T, N> {
    // An empty list; `fill` takes the unused places.
    pub fn new(fill: T) -> Row<T, N>
        ensures { held result ≡ [] }
    {
        Row {
            items: [fill; N],
            len: 0,
        }
    }

    // A list of these items, unless there are more than N; `fill` takes the unused places.
    pub fn of(fill: T, items: &[T]) -> Option<Row<T, N>>
        ensures { MatchOption result (N < length items.now) (λ row. held row ≡ items.now) }
    {
        if items.len() > N {
            return None;
        }
        Some(Row {
            items: filled(fill, items),
            len: items.len(),
        })
    }

    // How many items the list holds.
    pub fn len(&self) -> usize
        ensures value { result ≡ length (held self.now) }
        ensures bound { result ≤ N }
    {
        self.as_slice().len()
    }

    // Whether there is no place left.
    pub fn is_full(&self) -> bool
        ensures { Decides result (length (held self.now) ≡ N) }
    {
        self.len == N
    }

    // One item more at the end of a list that is not full.
    fn append(&mut self, x: T)
        requires { length (held self.old) < N }
        ensures { held self.new ≡ held self.old ++ x ∷ [] }
    {
        let at = self.len;
        write(&mut self.items, at, x);
        self.len = at + 1;
    }

    // Puts one item more at the end; a full list hands it back, and stays as it was.
    pub fn push(&mut self, x: T) -> Result<(), T>
        ensures { MatchResult result
            (λ _. (length (held self.old) < N) × (held self.new ≡ held self.old ++ x ∷ []))
            (λ y. (length (held self.old) ≡ N) × (y ≡ x) × (held self.new ≡ held self.old)) }
    {
        if self.is_full() {
            return Err(x);
        }
        self.append(x);
        Ok(())
    }

    // The last item, if there is one.
    fn last(&self) -> Option<T>
        ensures { MatchOption result (held self.now ≡ []) (λ x. held self.now ≡ take (length (held self.now) - 1) (held self.now) ++ x ∷ []) }
    {
        self.as_slice().last().copied()
    }

    // Takes the last item away from a list that is not empty.
    fn shorten(&mut self)
        requires { 0 < length (held self.old) }
        ensures { held self.new ≡ take (length (held self.old) - 1) (held self.old) }
    {
        self.len -= 1;
    }

    // Takes the last item away, if there is one, and hands it out.
    pub fn pop(&mut self) -> Option<T>
        ensures items { held self.new ≡ take (length (held self.old) - 1) (held self.old) }
        ensures last { MatchOption result (held self.old ≡ []) (λ x. held self.old ≡ held self.new ++ x ∷ []) }
    {
        let x = self.last()?;
        self.shorten();
        Some(x)
    }

    // The items.
    pub fn as_slice(&self) -> &[T]
        ensures { result.now ≡ held self.now }
    {
        let all = &self.items[..];
        &all[0..self.len]
    }
}
