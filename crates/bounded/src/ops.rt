ghost use Rattle.std.specs.Prelude.{◌≡◌, ◌≤◌, [], ◌∷◌, ◌++◌, length, take, ⊤};
ghost use Rattle.bounded.specs.Items.{FirstRemoved, Pushed, items};

use crate::ArrayVec;
use std::alloc::AllocError;

// By hand, since `Clone` is not derived for a generic struct with ghost fields.
impl<T: Copy, const N: usize> Clone for ArrayVec<T, N> {
    ghost is_clone = { λ v w. w ≡ v };

    ghost is_infallible = { λ _. ⊤ };

    fn clone(&self) -> Result<Self, AllocError> {
        Ok(*self)
    }
}

impl<T: Copy, const N: usize> ArrayVec<T, N> {
    /// The empty list. `fill` is put into the unused slots and never shows.
    pub fn new(fill: T) -> Self
        ensures { items result ≡ [] }
    {
        ArrayVec {
            slots: [fill; N],
            len: 0,
        }
    }

    /// How many items it holds.
    pub fn len(&self) -> usize
        ensures value { result ≡ length (items self.now) }
        ensures bound { result ≤ N }
    {
        self.as_slice().len()
    }

    /// The items, in the order in which they came.
    pub fn as_slice(&self) -> &[T]
        ensures value { result.now ≡ items self.now }
        ensures bound { length result.now ≤ N }
    {
        &self.slots[..self.len]
    }

    /// Adds `x` behind the last item; where all N places are taken, hands it back and changes nothing.
    pub fn push(&mut self, x: T) -> Result<(), T>
        ensures cases { Pushed self.old self.new x result }
        ensures items { items self.new ≡ take N (items self.old ++ x ∷ []) }
        ensures grows { length (items self.old) ≤ length (items self.new) }
    {
        if self.len < N {
            self.slots[self.len] = x;
            self.len += 1;
            Ok(())
        } else {
            Err(x)
        }
    }

    /// Removes the first item and gives it; none where the list is empty, and then nothing changes.
    pub fn remove_first(&mut self) -> Option<T>
        ensures { FirstRemoved self.old self.new result }
    {
        let first = self.as_slice().first().copied()?;
        self.slots.rotate_left(1);
        self.len -= 1;
        Some(first)
    }
}
