ghost use Rattle.std.specs.Prelude.{◌≡◌, refl};
ghost use Rattle.batch.specs.Groups.{groups_line, GroupsPut, GroupsTake, new_groups};
ghost use Rattle.batch.specs.Views.{groups_of};
ghost use Rattle.batch.specs.Batches.{groups_orderly, groups_new, groups_putting, groups_taking};
ghost use Rattle.batch.specs.Held.{apart};
ghost use Rattle.bank.specs.Starts.{as_new};

use crate::Batch;
use bank::{Queue, StreamCount};
use streams::StreamSet;

impl Queue for Batch {
    ghost line = { λ q. groups_line (groups_of q) };

    ghost starts = { λ n q. groups_of q ≡ new_groups n };

    ghost puts = { λ q i r q'. GroupsPut (groups_of q) i r (groups_of q') };

    ghost takes = { λ q r q'. GroupsTake (groups_of q) r (groups_of q') };

    ghost orderly = { λ q. groups_orderly (groups_of q) (apart q) };

    ghost starting = { λ n q. as_new groups_line n refl (groups_new n) };

    ghost putting = { λ q i r q' p. groups_putting (groups_of q) i r (groups_of q') (apart q) p };

    ghost taking = { λ q r q' t. groups_taking (groups_of q) r (groups_of q') (apart q) t };

    fn new(streams: StreamCount) -> Batch {
        Batch {
            size: streams,
            closed: StreamSet::empty(),
            gathered: StreamSet::empty(),
        }
    }

    fn size(&self) -> usize {
        self.size.get()
    }

    fn turns(&self, stream: usize) -> usize {
        if self.size.includes(stream) {
            self.size.get() + stream - 1
        } else {
            0
        }
    }

    fn waits(&self, stream: usize) -> bool {
        self.closed.contains(stream) || self.gathered.contains(stream)
    }

    // The same in each policy; one body for all would need a ghost member and two laws in each.
    fn put(&mut self, stream: usize) -> bool {
        if !self.size.includes(stream) || self.waits(stream) {
            return false;
        }
        self.gathered.insert(stream);
        true
    }

    fn take(&mut self) -> Option<usize> {
        if let Some(stream) = self.closed.above(0) {
            self.closed.remove(stream);
            return Some(stream);
        }
        let stream = self.gathered.above(0)?;
        self.gathered.remove(stream);
        self.closed = self.gathered;
        self.gathered = StreamSet::empty();
        Some(stream)
    }
}
