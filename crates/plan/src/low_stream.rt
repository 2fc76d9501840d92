ghost use Rattle.std.specs.Prelude.{◌≡◌, Some};
ghost use Rattle.plan.specs.Changes.{MadeIff};
ghost use Rattle.plan.specs.Net.{CycleInRange};
ghost use Rattle.plan.specs.Shown.{cycle_text};
ghost use Rattle.plan.specs.Views.{cycle_of};

use crate::LowStream;
use std::fmt;

impl LowStream {
    // Like `Master::new` over another range. A type for numbers from 1 to a bound would save one test
    // in each, and put a conversion into every reader of a cycle or a hop.

    /// A low stream with this longest cycle; none where that is out of its range.
    pub fn new(cycle: u16) -> Option<LowStream>
        ensures { MadeIff cycle_of (CycleInRange cycle) cycle result }
    {
        if !(1..=60_000).contains(&cycle) {
            return None;
        }
        Some(LowStream { cycle })
    }

    /// The longest cycle.
    pub fn cycle(&self) -> u16
        ensures { result ≡ cycle_of self.now }
    {
        self.cycle
    }
}

impl fmt::Display for LowStream {
    ghost output = { λ s. Some (cycle_text (cycle_of s)) };

    fn fmt<W: fmt::Write>(&self, f: &mut fmt::Formatter<W>) -> fmt::Result {
        let cycle = self.cycle;
        write!(f, "cycle {cycle}")
    }
}
