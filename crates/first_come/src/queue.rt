ghost use Rattle.std.specs.Prelude.{◌≡◌, refl};
ghost use Rattle.first_come.specs.Order.{new_order, order_line, OrderPut, OrderTake};
ghost use Rattle.first_come.specs.Views.{order_of};
ghost use Rattle.first_come.specs.Orders.{order_orderly, order_new, order_putting, order_taking};
ghost use Rattle.first_come.specs.Held.{lined};
ghost use Rattle.bank.specs.Starts.{as_new};

use crate::FirstCome;
use bank::{Queue, StreamCount};
use bounded::ArrayVec;

impl Queue for FirstCome {
    ghost line = { λ q. order_line (order_of q) };

    ghost starts = { λ n q. order_of q ≡ new_order n };

    ghost puts = { λ q i r q'. OrderPut (order_of q) i r (order_of q') };

    ghost takes = { λ q r q'. OrderTake (order_of q) r (order_of q') };

    ghost orderly = { λ q. order_orderly (order_of q) (lined q) };

    ghost starting = { λ n q. as_new order_line n refl (order_new n) };

    ghost putting = { λ q i r q' p. order_putting (order_of q) i r (order_of q') (lined q) (lined q') p };

    ghost taking = { λ q r q' t. order_taking (order_of q) r (order_of q') (lined q) t };

    fn new(streams: StreamCount) -> FirstCome {
        FirstCome {
            size: streams,
            order: ArrayVec::new(0),
        }
    }

    fn size(&self) -> usize {
        self.size.get()
    }

    fn turns(&self, stream: usize) -> usize {
        self.size.turns_each(stream)
    }

    // By hand: for eight numbers at most, the library's `contains` and `any` cost more than the search itself.
    fn waits(&self, stream: usize) -> bool {
        for waiting in self.order.as_slice() {
            if usize::from(*waiting) == stream {
                return true;
            }
        }
        false
    }

    // The same in each policy; one body for all would need a ghost member and two laws in each.
    fn put(&mut self, stream: usize) -> bool {
        if !self.size.includes(stream) || self.waits(stream) {
            return false;
        }
        // Each stream waits once, so one that does not wait finds room. At most 8, it is a byte.
        self.order.push(stream as u8).is_ok()
    }

    fn take(&mut self) -> Option<usize> {
        self.order.remove_first().map(usize::from)
    }
}
