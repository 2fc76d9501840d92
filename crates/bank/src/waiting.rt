ghost use Rattle.bank.specs.Runs.{Fair};
ghost use Rattle.bank.specs.Waiting.{Drawn, WaitsHere, WaitsSomewhere};

use crate::Bank;

/// Whether some stream waits at some master.
pub fn any_waits<B: Bank>(bank: &B) -> bool
    ensures { WaitsSomewhere (B.Bank.meaning bank.now) result }
{
    (1..=8).any(|master| any_waits_at(bank, master))
}

/// Whether some stream waits at the master.
pub fn any_waits_at<B: Bank>(bank: &B, master: usize) -> bool
    ensures { WaitsHere (B.Bank.meaning bank.now master) result }
{
    (1..=8).any(|stream| bank.waits(master, stream))
}

/// Takes at the master until the stream is given, and says how many takes that were: at most as
/// many as its left number was. A stream that does not wait needs none, and nothing changes.
///
/// The clause `fair` is the same promise with anything in between: whatever is put and taken after a
/// put was accepted, fewer takes than its turns go by at its master before the stream is given.
pub fn take_until<B: Bank>(bank: &mut B, master: usize, stream: usize) -> usize
    ensures drawn { Drawn B.Bank.meaning B.Bank.takes master stream bank.old result bank.new }
    ensures fair { Fair }
{
    // Tried as a chain over `iter::from_fn`: that it ends (`count-requires-clause-finite`) did not close.
    let mut takes = 0;
    while bank.waits(master, stream) {
        // Which stream that gave, the next `waits` tells.
        let _ = bank.take(master);
        takes += 1;
    }
    takes
}
