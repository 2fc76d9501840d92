// The plan of a bus: its masters in token order, their high and low streams, and the target
// rotation time. Times are whole bit times. Every type but `Times`, which is what somebody tells,
// keeps its own ranges in a ghost field, so no value that breaks them can be made.
#![tactic(auto)]

ghost use Rattle.std.specs.Prelude.{◌≤◌, length};
ghost use Rattle.bounded.specs.Items.{items};

use bounded::ArrayVec;

mod high_stream;
mod low_stream;
mod masters;
mod plans;
mod targets;

/// How many masters a plan has room for.
pub const MASTERS: usize = 8;

/// How many high streams a master has room for.
pub const HIGHS: usize = 8;

/// How many low streams a master has room for.
pub const LOWS: usize = 4;

/// The greatest target rotation time.
pub const GREATEST_TARGET: u32 = 16_777_215;

/// The times of a high stream as they are told, in range or not.
#[derive(Clone, Copy, Debug, PartialEq, Eq)]
pub struct Times {
    /// The longest cycle, with all retries in it.
    pub cycle: u16,
    /// The deadline of a request.
    pub deadline: u32,
    /// The delay of a request's generation.
    pub generation: u16,
    /// The delay of its delivery.
    pub delivery: u16,
}

/// A high stream: requests that have a deadline.
#[derive(Clone, Copy)]
pub struct HighStream {
    times: Times,
    ghost cycles: { (1 ≤ times.cycle) × (times.cycle ≤ 60000) },
    ghost deadlines: { (1 ≤ times.deadline) × (times.deadline ≤ 4294967295) },
    ghost delays: { (times.generation ≤ 60000) × (times.delivery ≤ 60000) },
}

/// A low stream: requests that run when time is left.
#[derive(Clone, Copy)]
pub struct LowStream {
    cycle: u16,
    ghost range: { (1 ≤ cycle) × (cycle ≤ 60000) },
}

/// A master: the time that its token needs to the next master, and its streams, numbered from 1.
#[derive(Clone, Copy)]
pub struct Master {
    hop: u16,
    highs: ArrayVec<HighStream, HIGHS>,
    lows: ArrayVec<LowStream, LOWS>,
    ghost range: { (1 ≤ hop) × (hop ≤ 10000) },
}

/// A target rotation time; 0 means not set.
// No `Option` of a time: a file has 0 for it, as a caller has, and what is computed reads the number.
#[derive(Clone, Copy)]
pub struct Target {
    time: u32,
    ghost range: { time ≤ 16777215 },
}

/// A plan: 1 to 8 masters, numbered from 1 in token order, and the target.
#[derive(Clone, Copy)]
pub struct Plan {
    target: Target,
    masters: ArrayVec<Master, MASTERS>,
    ghost some: { 1 ≤ length (items masters) },
}
