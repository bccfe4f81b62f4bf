ghost use Rattle.std.specs.Prelude.{◌≡◌};
ghost use Rattle.rows.specs.Listings.{Puts};

use crate::lent::LentList;

impl<'a, T: Copy> LentList<'a, T> {
    // Fills the next place; where there is none, hands the item back, and nothing changes.
    pub fn put(&mut self, x: T) -> Result<(), T>
        ensures puts { Puts self.old.places.now self.old.len x result self.new.places.now self.new.len }
        ensures lender { self.new.places.ghost_name ≡ self.old.places.ghost_name }
    {
        let at = self.len;
        if at >= self.places.len() {
            return Err(x);
        }
        self.places[at] = x;
        self.len = at + 1;
        Ok(())
    }
}
