ghost use Rattle.std.specs.Prelude.{◌≡◌, ◌≤◌, map, length};
ghost use Rattle.plan.specs.Changes.{HighAdded, LowAdded, MadeIff};
ghost use Rattle.plan.specs.Net.{HopInRange, bare};
ghost use Rattle.plan.specs.Views.{stream_of, cycle_of, station_of};

use crate::{HighStream, LowStream, Master, Times};
use bounded::ArrayVec;

impl Master {
    /// A master with this hop and no streams; none where the hop is out of its range.
    pub fn new(hop: u16) -> Option<Master>
        ensures { MadeIff station_of (HopInRange hop) (bare hop) result }
    {
        if !(1..=10_000).contains(&hop) {
            return None;
        }
        Some(Master::bare(hop))
    }

    // A master without streams.
    pub(crate) fn bare(hop: u16) -> Master
        requires { HopInRange hop }
        ensures { station_of result ≡ bare hop }
    {
        Master {
            hop,
            highs: ArrayVec::new(HighStream {
                times: Times {
                    cycle: 1,
                    deadline: 1,
                    generation: 0,
                    delivery: 0,
                },
            }),
            lows: ArrayVec::new(LowStream { cycle: 1 }),
        }
    }

    /// The time that the token needs to the next master.
    pub fn hop(&self) -> u16
        ensures { result ≡ (station_of self.now).hop }
    {
        self.hop
    }

    // High and low streams have the same calls, one line each over `ArrayVec`; a trait over both kinds
    // would be no shorter.

    /// The high streams.
    pub fn highs(&self) -> &[HighStream]
        ensures value { map stream_of result.now ≡ (station_of self.now).highs }
        ensures len { length result.now ≡ length (station_of self.now).highs }
        ensures bound { length result.now ≤ 8 }
    {
        self.highs.as_slice()
    }

    /// The low streams.
    pub fn lows(&self) -> &[LowStream]
        ensures value { map cycle_of result.now ≡ (station_of self.now).lows }
        ensures len { length result.now ≡ length (station_of self.now).lows }
        ensures bound { length result.now ≤ 4 }
    {
        self.lows.as_slice()
    }

    /// Adds a high stream behind the others; hands a ninth back and changes nothing.
    pub fn add_high(&mut self, high: HighStream) -> Result<(), HighStream>
        ensures { HighAdded self.old self.new high result }
    {
        self.highs.push(high)
    }

    /// Adds a low stream behind the others; hands a fifth back and changes nothing.
    pub fn add_low(&mut self, low: LowStream) -> Result<(), LowStream>
        ensures { LowAdded self.old self.new low result }
    {
        self.lows.push(low)
    }
}
