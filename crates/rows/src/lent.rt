ghost use Rattle.std.specs.Prelude.{◌≡◌};

mod putting;

// A list over memory that the caller lends, since nothing here may allocate: the first `len` places are filled.
#[derive(Drop)]
pub struct LentList<'a, T: Copy> {
    places: &'a mut [T],
    len: usize,
}

impl<'a, T: Copy> LentList<'a, T> {
    // An empty list over this memory.
    pub fn new(places: &'a mut [T]) -> LentList<'a, T>
        ensures none { result.len ≡ 0 }
        ensures same { result.places.now ≡ places.old }
        ensures lender { result.places.ghost_name ≡ places.entry.ghost_name }
    {
        LentList { places, len: 0 }
    }

    // How many places are filled.
    pub fn len(&self) -> usize
        ensures { result ≡ self.now.len }
    {
        self.len
    }
}
