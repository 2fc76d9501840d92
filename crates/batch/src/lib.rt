// The batch policy: a take gives the lowest of a closed group, while newcomers gather in an open one.
#![tactic(auto)]

ghost use Rattle.std.specs.Prelude.{◌≡◌, ℕ, true, false};
ghost use Rattle.streams.specs.Members.{members};
ghost use Rattle.streams.specs.Streams.{AllAmong};

use bank::{QueueBank, StreamCount};
use streams::StreamSet;

mod queue;

/// A bank of batch queues.
pub type BatchBank = QueueBank<Batch>;

/// A queue that serves one group while the next gathers: when a take finds the closed group empty,
/// the open group becomes the closed one.
#[derive(Clone, Copy)]
pub struct Batch {
    size: StreamCount,
    closed: StreamSet,
    gathered: StreamSet,
    // The same of both groups: a set that knew the size would carry it twice.
    ghost closing: { AllAmong size.count (members closed) },
    ghost gathering: { AllAmong size.count (members gathered) },
    ghost once: { (i : ℕ) → members closed i ≡ true → members gathered i ≡ false },
}

const _: () = prove!(size_of::<Batch>() == 19);
