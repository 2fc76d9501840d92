ghost use Rattle.std.specs.Prelude.{◌≡◌, ◌≤◌, map, length};
ghost use Rattle.bounded.specs.Items.{items};
ghost use Rattle.plan.specs.Changes.{MadeIff, MasterAdded, Retargeted};
ghost use Rattle.plan.specs.Net.{TargetInRange, fresh, planned, walk};
ghost use Rattle.plan.specs.Views.{station_of, net, EveryPlanInRange};

use crate::{MASTERS, Master, Plan, Target};
use bounded::ArrayVec;
use refusal::Refusal;

impl Plan {
    /// The fresh plan: one master with hop 1, no streams, and no target.
    pub fn new() -> Plan
        ensures fresh { net result ≡ fresh }
        ensures ranges { EveryPlanInRange }
    {
        let first = Master::bare(1);
        let mut masters = ArrayVec::<Master, MASTERS>::new(first);
        masters.push(first).unwrap();
        Plan {
            target: Target { time: 0 },
            masters,
        }
    }

    /// A plan of these masters, in token order, at this target; none where the target is out of its
    /// range or there is no master.
    pub fn of(target: u32, masters: ArrayVec<Master, MASTERS>) -> Option<Plan>
        ensures { MadeIff net (TargetInRange target × (1 ≤ length (items masters))) (planned target (map station_of (items masters))) result }
    {
        let target = Target::try_from(target).ok()?;
        if masters.as_slice().is_empty() {
            return None;
        }
        Some(Plan { target, masters })
    }

    /// The target rotation time; 0 means not set.
    pub fn target(&self) -> u32
        ensures { result ≡ (net self.now).target }
    {
        self.target.into()
    }

    /// The masters, in token order.
    pub fn masters(&self) -> &[Master]
        ensures value { map station_of result.now ≡ (net self.now).masters }
        ensures len { length result.now ≡ length (net self.now).masters }
        ensures bound { (1 ≤ length result.now) × (length result.now ≤ 8) }
    {
        self.masters.as_slice()
    }

    /// Adds a master behind the others; hands a ninth back and changes nothing.
    pub fn add_master(&mut self, master: Master) -> Result<(), Master>
        ensures { MasterAdded self.old self.new master result }
    {
        self.masters.push(master)
    }

    /// Sets the target and nothing else; refuses one above the greatest and changes nothing.
    pub fn set_target(&mut self, target: u32) -> Result<(), Refusal>
        ensures cases { Retargeted self.old self.new target result }
        ensures tables { self.new.masters ≡ self.old.masters }
    {
        self.target = Target::try_from(target)?;
        Ok(())
    }

    /// The walk: the sum of the hops.
    pub fn walk(&self) -> u32
        ensures { result ≡ walk (net self.now) }
    {
        self.masters()
            .iter()
            .map(|master| u32::from(master.hop))
            .sum()
    }
}
