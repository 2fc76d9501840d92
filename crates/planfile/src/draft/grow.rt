// One record more: each call looks at the order first, then at the room, then at the ranges. The place
// goes through all of them, since only the last knows which refusal it is for.
ghost use Rattle.std.specs.Prelude.{◌≡◌, [], ◌∷◌, ◌++◌, MatchResult};
ghost use Rattle.bounded.specs.Items.{items};
ghost use Rattle.plan.specs.Views.{net};
ghost use Rattle.planfile.specs.Format.{records};
ghost use Rattle.planfile.specs.Drafts.{Grows, front, grown};
ghost use Rattle.planfile.specs.Reading.{Masterless, front_records};

use crate::draft::{Draft, Growing};
use crate::records::Record;
use bounded::ArrayVec;
use plan::{HIGHS, HighStream, LOWS, LowStream, MASTERS, Master, Plan, Target, Times};
use refusal::Refusal;

impl Draft {
    // The plan, where the file ends at `at`.
    pub(crate) fn finish(self, at: usize) -> Result<Plan, Refusal>
        ensures { MatchResult result (λ p. front_records (front self) ≡ records (net p)) (λ e. (e ≡ Refusal.NoMaster at) × Masterless (front self)) }
    {
        match self {
            Draft::Start | Draft::Ring { .. } => Err(Refusal::NoMaster { at }),
            Draft::Masters(growing) => Ok(growing.finish()),
        }
    }

    // One record more, which stands at `at`.
    pub(crate) fn grow(self, next: Record, at: usize) -> Result<Draft, Refusal>
        ensures { Grows (front self) next at result }
    {
        match (self, next) {
            (Draft::Start, Record::Ring { target }) => {
                let target = Target::try_from(target).map_err(|_| Refusal::OutOfRange { at })?;
                Ok(Draft::Ring { target })
            }
            (Draft::Ring { target }, Record::Master { hop }) => {
                let last = Master::new(hop).ok_or(Refusal::OutOfRange { at })?;
                let done = ArrayVec::new(last);
                Ok(Draft::Masters(Growing { target, done, last }))
            }
            (Draft::Masters(growing), Record::Master { hop }) => growing.add_master(hop, at),
            (Draft::Masters(growing), Record::High(times)) => growing.add_high(times, at),
            (Draft::Masters(growing), Record::Low { cycle }) => growing.add_low(cycle, at),
            // A second ring, and then what stands before the ring or before the first master.
            (Draft::Masters(_), Record::Ring { .. }) => Err(Refusal::BadRecord { at }),
            _ => Err(Refusal::BadRecord { at }),
        }
    }
}

impl Growing {
    // All its masters, the last one behind those that are done.
    fn masters(&self) -> ArrayVec<Master, MASTERS>
        ensures { items result ≡ items self.now.done ++ self.now.last ∷ [] }
    {
        let mut masters = self.done;
        masters.push(self.last).unwrap();
        masters
    }

    // The plan of all its masters.
    fn finish(self) -> Plan
        ensures { front_records (grown self) ≡ records (net result) }
    {
        Plan::of(self.target.into(), self.masters()).unwrap()
    }

    fn add_master(self, hop: u16, at: usize) -> Result<Draft, Refusal>
        ensures { Grows (grown self) (Record.Master hop) at result }
    {
        let done = self.masters();
        if done.len() == MASTERS {
            return Err(Refusal::TooMany { at });
        }
        let last = Master::new(hop).ok_or(Refusal::OutOfRange { at })?;
        let target = self.target;
        Ok(Draft::Masters(Growing { target, done, last }))
    }

    // A high and a low stream are added alike, but each has an order, a room and a range of its own.
    fn add_high(mut self, times: Times, at: usize) -> Result<Draft, Refusal>
        ensures { Grows (grown self) (Record.High times) at result }
    {
        if !self.last.lows().is_empty() {
            return Err(Refusal::BadRecord { at });
        }
        if self.last.highs().len() == HIGHS {
            return Err(Refusal::TooMany { at });
        }
        let high = HighStream::new(times).ok_or(Refusal::OutOfRange { at })?;
        self.last.add_high(high).unwrap();
        Ok(Draft::Masters(self))
    }

    fn add_low(mut self, cycle: u16, at: usize) -> Result<Draft, Refusal>
        ensures { Grows (grown self) (Record.Low cycle) at result }
    {
        if self.last.lows().len() == LOWS {
            return Err(Refusal::TooMany { at });
        }
        let low = LowStream::new(cycle).ok_or(Refusal::OutOfRange { at })?;
        self.last.add_low(low).unwrap();
        Ok(Draft::Masters(self))
    }
}
