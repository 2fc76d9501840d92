ghost use Rattle.bank.specs.Eight.{Built, Fresh, means, PolicyPut, PolicyTake, Shaped, Shapes};
ghost use Rattle.std.proofs.Common.{rules};

use crate::waiting::any_waits;
use crate::{Bank, PerMaster, Queue, QueueBank, StreamCount};
use refusal::Refusal;

impl<Q: Queue> QueueBank<Q> {
    /// A bank without streams.
    pub fn new() -> QueueBank<Q>
        ensures policy { Shaped Q.Queue.starts (λ _. 0) result }
        ensures meant { Fresh Q.Queue.line (λ _. 0) result }
    {
        QueueBank {
            queues: PerMaster::all(Q::new(StreamCount::zero())),
        }
    }

    /// Starts the bank as new with these sizes, one a master. Refused where a size is above 8, and
    /// then where something waits; the bank stays as it is.
    pub fn shape(&mut self, sizes: [usize; 8]) -> Result<(), Refusal>
        ensures { Shapes Q.Queue.line Q.Queue.starts self.old sizes result self.new }
    {
        let shaped = QueueBank::with_sizes(sizes)?;
        if any_waits(self) {
            return Err(Refusal::ShapeWhileWaiting);
        }
        *self = shaped;
        Ok(())
    }

    // A new bank with these sizes; refused where one is above 8.
    fn with_sizes(sizes: [usize; 8]) -> Result<QueueBank<Q>, Refusal>
        ensures { Built Q.Queue.starts sizes result }
    {
        // An array's `try_map` and `map` get no proof here: `Q::new` answers a type parameter.
        let mut queues = PerMaster::all(Q::new(StreamCount::zero()));
        for (index, size) in sizes.iter().enumerate() {
            queues.set(index + 1, Q::new(StreamCount::try_from(*size)?));
        }
        Ok(QueueBank { queues })
    }
}

impl<Q: Queue> Bank for QueueBank<Q> {
    ghost meaning = { means Q.Queue.line };

    ghost puts = { PolicyPut Q.Queue.puts };

    ghost takes = { PolicyTake Q.Queue.takes };

    ghost lawful = { Prim.search rules };

    fn size(&self, master: usize) -> usize {
        self.queues.get(master).map_or(0, |queue| queue.size())
    }

    fn turns(&self, master: usize, stream: usize) -> usize {
        self.queues
            .get(master)
            .map_or(0, |queue| queue.turns(stream))
    }

    // These three have the test in common; a closure for what follows it would need a longer clause. They go
    // to the queue in its place: a copy of it at each of the 64 streams would be most of a search for what waits.
    fn waits(&self, master: usize, stream: usize) -> bool {
        (1..=8).contains(&master) && self.queues.values[master - 1].waits(stream)
    }

    fn put(&mut self, master: usize, stream: usize) -> bool {
        if !(1..=8).contains(&master) {
            return false;
        }
        self.queues.values[master - 1].put(stream)
    }

    fn take(&mut self, master: usize) -> Option<usize> {
        if !(1..=8).contains(&master) {
            return None;
        }
        self.queues.values[master - 1].take()
    }
}
