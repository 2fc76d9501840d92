// Reading a plan file, record by record.
ghost use Rattle.std.specs.Prelude.{◌≡◌, ◌<◌, ◌++◌, length, Err, MatchResult};
ghost use Rattle.plan.specs.Net.{Net, NetInRange};
ghost use Rattle.plan.specs.Views.{net};
ghost use Rattle.planfile.specs.Drafts.{front};
ghost use Rattle.planfile.specs.Format.{encoded, framed};
ghost use Rattle.planfile.specs.Reading.{Cut, Refused, Stuck, Taken, Versioned};

use crate::VERSION;
use crate::draft::Draft;
use crate::records::Record;
use plan::Plan;
use refusal::Refusal;

/// The plan that a file holds, or the first thing that is wrong in it. Reading goes record by record;
/// for each it looks at the bytes that are left, then at kind, length and order, then at the number
/// of masters and streams, then at the ranges.
pub fn read(file: &[u8]) -> Result<Plan, Refusal>
    ensures value { MatchResult result (λ p. file.now ≡ encoded (net p)) (λ e. Refused file.now e) }
    ensures accepts { (n : Net) → NetInRange n → file.now ≡ encoded n → MatchResult result (λ p. net p ≡ n) (λ _. ⊥) }
    ensures back { (q : Plan) → file.now ≡ encoded (net q) → MatchResult result (λ p. net p ≡ net q) (λ _. ⊥) }
    ensures refuses { (e : Refusal) → Refused file.now e → result ≡ Err e }
{
    let [VERSION, ..] = file else {
        return Err(Refusal::BadVersion);
    };
    read_records(file)
}

// Reads the records behind the version byte.
fn read_records(file: &[u8]) -> Result<Plan, Refusal>
    requires { Versioned file.now }
    ensures { MatchResult result (λ p. file.now ≡ encoded (net p)) (λ e. Refused file.now e) }
{
    // Each record tells its own length, so no iterator of the library has them.
    let mut draft = Draft::Start;
    let mut left = &file[1..];
    while !left.is_empty() {
        (draft, left) = step(draft, left, file.len() - left.len())?;
    }
    draft.finish(file.len())
}

// Takes the record that `left` begins with, at the place `at`: the draft that it makes, and what is
// left behind it.
fn step(draft: Draft, left: &[u8], at: usize) -> Result<(Draft, &[u8]), Refusal>
    requires { 0 < length left.now }
    ensures { MatchResult result (λ s. Taken (front draft) left.now (front s.0) s.1.now) (λ e. Stuck (front draft) left.now at e) }
{
    let (contents, left) = split_contents(left, at)?;
    let next = Record::parse(contents).ok_or(Refusal::BadRecord { at })?;
    Ok((draft.grow(next, at)?, left))
}

// The contents of the record that `left` begins with, at the place `at`, and what is left behind it;
// refused where that record is cut short.
fn split_contents(left: &[u8], at: usize) -> Result<(&[u8], &[u8]), Refusal>
    requires { 0 < length left.now }
    ensures { MatchResult result (λ p. left.now ≡ framed p.0.now ++ p.1.now) (λ e. (e ≡ Refusal.CutShort at) × Cut left.now) }
{
    let [high, low, rest @ ..] = left else {
        return Err(Refusal::CutShort { at });
    };
    let announced = usize::from(u16::from_be_bytes([*high, *low]));
    rest.split_at_checked(announced)
        .ok_or(Refusal::CutShort { at })
}
