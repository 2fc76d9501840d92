// What a reader has so far.
ghost use Rattle.std.specs.Prelude.{◌<◌, length};
ghost use Rattle.bounded.specs.Items.{items};

use bounded::ArrayVec;
use plan::{MASTERS, Master, Target};

mod grow;

// A plan in the making: the masters that are done, and the last, to which streams may still come.
// Fewer than 8 are done, so that there is room for the last.
#[derive(Clone, Copy)]
pub struct Growing {
    target: Target,
    done: ArrayVec<Master, MASTERS>,
    last: Master,
    ghost room: { length (items done) < 8 },
}

#[derive(Clone, Copy)]
pub enum Draft {
    // nothing behind the version byte
    Start,
    // the ring record
    Ring { target: Target },
    // the ring record and at least one master
    Masters(Growing),
}
