// Sets of streams by value: a flag for each number from 1 to 8.
#![tactic(auto)]

ghost use Rattle.std.specs.Prelude.{◌≡◌, false, length, slice_index_or};

mod stream_set;

/// A set of streams. It has room for the numbers 1 to 8.
#[derive(Clone, Copy)]
pub struct StreamSet {
    // No heap. Each flag stands at its stream's number; that of 0, which no stream has, is never set.
    flags: [bool; 9],
    ghost nine: { length flags ≡ 9 },
    ghost none: { slice_index_or flags 0 false ≡ false },
}
