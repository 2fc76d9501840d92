ghost use Rattle.std.specs.Prelude.{◌≡◌, refl};
ghost use Rattle.cyclic.specs.Circle.{circle_line, CirclePut, CircleTake, new_circle, Nearest};
ghost use Rattle.cyclic.specs.Views.{circle_of};
ghost use Rattle.cyclic.specs.Circles.{circle_orderly, circle_new, circle_putting, circle_taking};
ghost use Rattle.cyclic.specs.Held.{round};
ghost use Rattle.bank.specs.Starts.{as_new};

use crate::Cyclic;
use bank::{Queue, StreamCount};
use streams::StreamSet;

impl Cyclic {
    // The waiting stream that comes next after the one given last, going round.
    fn next(&self) -> Option<usize>
        ensures { Nearest (circle_of self.now) result }
    {
        self.last
            .and_then(|last| self.waiting.above(usize::from(last)))
            .or_else(|| self.waiting.above(0))
    }
}

impl Queue for Cyclic {
    ghost line = { λ q. circle_line (circle_of q) };

    ghost starts = { λ n q. circle_of q ≡ new_circle n };

    ghost puts = { λ q i r q'. CirclePut (circle_of q) i r (circle_of q') };

    ghost takes = { λ q r q'. CircleTake (circle_of q) r (circle_of q') };

    ghost orderly = { λ q. circle_orderly (circle_of q) (round q) };

    ghost starting = { λ n q. as_new circle_line n refl (circle_new n) };

    ghost putting = { λ q i r q' p. circle_putting (circle_of q) i r (circle_of q') (round q) p };

    ghost taking = { λ q r q' t. circle_taking (circle_of q) r (circle_of q') (round q) t };

    fn new(streams: StreamCount) -> Cyclic {
        Cyclic {
            size: streams,
            last: None,
            waiting: StreamSet::empty(),
        }
    }

    fn size(&self) -> usize {
        self.size.get()
    }

    fn turns(&self, stream: usize) -> usize {
        self.size.turns_each(stream)
    }

    fn waits(&self, stream: usize) -> bool {
        self.waiting.contains(stream)
    }

    // The same in each policy; one body for all would need a ghost member and two laws in each.
    fn put(&mut self, stream: usize) -> bool {
        if !self.size.includes(stream) || self.waits(stream) {
            return false;
        }
        self.waiting.insert(stream);
        true
    }

    fn take(&mut self) -> Option<usize> {
        let stream = self.next()?;
        self.waiting.remove(stream);
        // At most 8, it is a byte.
        self.last = Some(stream as u8);
        Some(stream)
    }
}
