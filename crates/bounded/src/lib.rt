// A list by value with room for N items and no heap. A bus card has no heap, and a plan's
// tables have bounds of their own, so nothing here can fail for want of memory.
#![tactic(auto)]

ghost use Rattle.std.specs.Prelude.{◌≡◌, ◌≤◌, length};

mod ops;

/// A list of at most N items. The slots past its length hold items that never show.
// No heap, so the length stands beside the slots. The library's `ArrayVec` would not do: it is not
// `Copy`, as a plan is, and its `new` asks for a `Default`, which a stream and a master have not.
#[derive(Copy)]
pub struct ArrayVec<T, const N: usize> {
    slots: [T; N],
    len: usize,
    ghost within: { len ≤ length slots },
    ghost full: { length slots ≡ N },
}
