// The first-come policy: a take gives the longest waiting.
#![tactic(auto)]

ghost use Rattle.std.specs.Prelude.{◌≡◌, ◌≤◌, true, length};
ghost use Rattle.bounded.specs.Items.{items};
ghost use Rattle.first_come.specs.Order.{all_among, once};

use bank::{QueueBank, StreamCount};
use bounded::ArrayVec;

mod queue;

/// A bank of first-come queues.
pub type FirstComeBank = QueueBank<FirstCome>;

/// A queue that gives the longest waiting.
#[derive(Clone, Copy)]
pub struct FirstCome {
    size: StreamCount,
    // Those that wait, the longest waiting first; a byte each, since a bank lives on a bus card.
    order: ArrayVec<u8, 8>,
    ghost few: { length (items order) ≤ size.count },
    ghost streams: { all_among size.count (items order) ≡ true },
    ghost single: { once (items order) ≡ true },
}

const _: () = prove!(size_of::<FirstCome>() == 24);
