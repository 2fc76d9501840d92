ghost use Rattle.std.specs.Prelude.{◌≡◌};
ghost use Rattle.plan.specs.Changes.{Targeted};

use crate::{GREATEST_TARGET, Target};
use refusal::Refusal;

/// A time as a target; refused above the greatest.
impl TryFrom<u32> for Target {
    type Error = Refusal;

    ghost try_from_gives = { Targeted };

    fn try_from(time: u32) -> Result<Target, Refusal> {
        if time > GREATEST_TARGET {
            return Err(Refusal::TargetTooLarge);
        }
        Ok(Target { time })
    }
}

/// The time itself.
impl From<Target> for u32 {
    ghost from_gives = { λ target time. time ≡ target.time };

    fn from(target: Target) -> u32 {
        target.time
    }
}
