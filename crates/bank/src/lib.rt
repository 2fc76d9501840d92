// Banks: what holds the high requests that wait at all masters. The interface says what every
// bank means; which stream a take gives is left to each bank's policy. A bank can be made of eight
// queues, one for each master.
#![tactic(auto)]

ghost use Rattle.std.specs.Prelude.{◌≡◌, ℕ, ◌≤◌, Bool, Option, nat_lt};
ghost use Rattle.bank.specs.Meaning.{Idle, Lawful, Line, LinePut, LineTake, Meaning, Orderly, Put, Take};

mod eight;
mod per_master;
mod stream_count;
mod waiting;

pub use waiting::{any_waits, any_waits_at, take_until};

/// The high requests that wait at all masters. Masters and streams are numbered from 1; any number
/// may be asked, and what does not exist has size and turns 0 and does not wait.
// A master and a stream are two numbers, since a size and a take ask for the master alone: a struct of
// both would be built at each call only to be taken apart in it. A put says yes or no, and what does not
// exist has 0: with a `Result` or an `Option` each caller, who counts with them, would turn them back.
pub trait Bank {
    /// Sizes, turns and left numbers, by master.
    ghost meaning: { Self → Meaning };

    /// What this bank's own policy does at a put and at a take, beyond the meaning.
    ghost puts: { Self → ℕ → ℕ → Bool → Self → Type 0 };

    ghost takes: { Self → ℕ → Option ℕ → Self → Type 0 };

    /// How many high streams the master has here.
    fn size(&self, master: usize) -> usize
        ensures { result ≡ (meaning self.now master).size };

    /// The most takes at its master until a stream that is put now is given.
    fn turns(&self, master: usize, stream: usize) -> usize
        ensures { result ≡ (meaning self.now master).turns stream };

    /// Whether the stream waits.
    fn waits(&self, master: usize, stream: usize) -> bool
        ensures { result ≡ nat_lt 0 ((meaning self.now master).left stream) };

    /// Lets the stream wait; says no where there is no such stream or it waits already.
    fn put(&mut self, master: usize, stream: usize) -> bool
        ensures meant { Put (meaning self.old) master stream result (meaning self.new) }
        ensures policy { puts self.old master stream result self.new };

    /// Gives one of the streams that wait at the master; it waits no more.
    fn take(&mut self, master: usize) -> Option<usize>
        ensures meant { Take (meaning self.old) master result (meaning self.new) }
        ensures policy { takes self.old master result self.new };

    ghost lawful: { (b : Self) → Lawful (meaning b) };
}

/// The high requests that wait at one master, under one policy. The calls are pinned by the
/// policy's own rules, and the laws say that these keep a line's meaning.
pub trait Queue: Copy {
    /// Size, turns and left numbers.
    ghost line: { Self → Line };

    /// The policy: what is a new queue with so many streams, what a put does and what a take does.
    ghost starts: { ℕ → Self → Type 0 };

    ghost puts: { Self → ℕ → Bool → Self → Type 0 };

    ghost takes: { Self → Option ℕ → Self → Type 0 };

    /// A queue of so many streams, none of which waits.
    fn new(streams: StreamCount) -> Self
        ensures { starts streams.count result };

    /// How many streams it has.
    fn size(&self) -> usize
        ensures { result ≡ (line self.now).size };

    /// How many streams it has, as a count.
    fn streams(&self) -> StreamCount
        ensures { result.count ≡ (line self.now).size }
    {
        StreamCount::try_from(self.size()).unwrap()
    }

    /// The most takes until a stream that is put now is given.
    fn turns(&self, stream: usize) -> usize
        ensures { result ≡ (line self.now).turns stream };

    /// Whether the stream waits.
    fn waits(&self, stream: usize) -> bool
        ensures { result ≡ nat_lt 0 ((line self.now).left stream) };

    /// Lets the stream wait; says no where there is no such stream or it waits already.
    fn put(&mut self, stream: usize) -> bool
        ensures { puts self.old stream result self.new };

    /// Gives the stream that the policy chooses among those that wait; it waits no more.
    fn take(&mut self) -> Option<usize>
        ensures { takes self.old result self.new };

    ghost orderly: { (q : Self) → Orderly (line q) };

    ghost starting: { (n : ℕ) (q : Self) → starts n q → ((line q).size ≡ n) × Idle (line q) };

    ghost putting: { (q : Self) (i : ℕ) (r : Bool) (q' : Self) → puts q i r q' → LinePut (line q) i r (line q') };

    ghost taking: { (q : Self) (r : Option ℕ) (q' : Self) → takes q r q' → LineTake (line q) r (line q') };
}

/// How many high streams a master has: 0 to 8.
#[derive(Clone, Copy)]
pub struct StreamCount {
    count: u8,
    ghost range: { count ≤ 8 },
}

/// A bank made of eight queues, one for each master.
#[derive(Clone, Copy)]
pub struct QueueBank<Q> {
    queues: PerMaster<Q>,
}

// One value for each of the eight masters. (The flags of a set of streams are kept likewise; a crate
// for both would be longer than the two.)
#[derive(Copy)]
struct PerMaster<T> {
    values: [T; 8],
}
