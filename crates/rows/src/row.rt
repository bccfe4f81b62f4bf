ghost use Rattle.std.specs.Prelude.{◌≡◌, ◌≤◌, length, ⊤};

use std::alloc::AllocError;

mod methods;

// A list of at most N items, held in place since nothing here may allocate: the first `len` places are filled.
pub struct Row<T: Copy, const N: usize> {
    items: [T; N],
    len: usize,
    ghost fits: { (len ≤ N) × (length items ≡ N) },
}

// By hand, as a clone of what has a ghost field can't be derived over a type parameter.
impl<T: Copy, const N: usize> Clone for Row<T, N> {
    ghost is_clone = { λ x y. y ≡ x };

    ghost is_infallible = { λ _. ⊤ };

    fn clone(&self) -> Result<Row<T, N>, AllocError> {
        Ok(*self)
    }
}

impl<T: Copy, const N: usize> Copy for Row<T, N> {}
