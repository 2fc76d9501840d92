// The cyclic policy: a take looks from the stream after the one given last, and wraps.
#![tactic(auto)]

ghost use Rattle.std.specs.Prelude.{◌≤◌};
ghost use Rattle.std.specs.Option.{unwrap_or};
ghost use Rattle.streams.specs.Members.{members};
ghost use Rattle.streams.specs.Streams.{AllAmong};

use bank::{QueueBank, StreamCount};
use streams::StreamSet;

mod queue;

/// A bank of cyclic queues.
pub type CyclicBank = QueueBank<Cyclic>;

/// A queue that goes round: it looks from the stream after the one given last, at first from
/// stream 1.
#[derive(Clone, Copy)]
pub struct Cyclic {
    size: StreamCount,
    // None before anything was given; a byte, since a bank lives on a bus card.
    last: Option<u8>,
    waiting: StreamSet,
    ghost within: { unwrap_or last 0 ≤ size.count },
    ghost streams: { AllAmong size.count (members waiting) },
}

const _: () = prove!(size_of::<Cyclic>() == 12);
