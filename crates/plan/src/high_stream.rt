ghost use Rattle.std.specs.Prelude.{◌≡◌, Some};
ghost use Rattle.plan.specs.Changes.{MadeIff};
ghost use Rattle.plan.specs.Net.{StreamInRange};
ghost use Rattle.plan.specs.Shown.{stream_text};
ghost use Rattle.plan.specs.Views.{stream_of, told};

use crate::{HighStream, Times};
use std::fmt;

impl HighStream {
    /// A high stream with these times; none where one is out of its range.
    pub fn new(times: Times) -> Option<HighStream>
        ensures { MadeIff stream_of (StreamInRange (told times)) (told times) result }
    {
        let in_range = (1..=60_000).contains(&times.cycle)
            && times.deadline > 0
            && times.generation <= 60_000
            && times.delivery <= 60_000;
        if !in_range {
            return None;
        }
        Some(HighStream { times })
    }

    /// All its times.
    pub fn times(&self) -> Times
        ensures { told result ≡ stream_of self.now }
    {
        self.times
    }

    // `times` gives all four at once; a call for each is promised too, and one line.

    /// The longest cycle, with all retries in it.
    pub fn cycle(&self) -> u16
        ensures { result ≡ (stream_of self.now).cycle }
    {
        self.times.cycle
    }

    /// The deadline of a request.
    pub fn deadline(&self) -> u32
        ensures { result ≡ (stream_of self.now).deadline }
    {
        self.times.deadline
    }

    /// The delay of a request's generation.
    pub fn generation(&self) -> u16
        ensures { result ≡ (stream_of self.now).generation }
    {
        self.times.generation
    }

    /// The delay of its delivery.
    pub fn delivery(&self) -> u16
        ensures { result ≡ (stream_of self.now).delivery }
    {
        self.times.delivery
    }
}

impl fmt::Display for HighStream {
    ghost output = { λ s. Some (stream_text (stream_of s)) };

    fn fmt<W: fmt::Write>(&self, f: &mut fmt::Formatter<W>) -> fmt::Result {
        let Times {
            cycle,
            deadline,
            generation,
            delivery,
        } = self.times;
        write!(
            f,
            "cycle {cycle}, deadline {deadline}, generation {generation}, delivery {delivery}"
        )
    }
}
