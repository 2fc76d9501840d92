// Plays lives of banks, one to a line of standard input, and answers each with a line. A life is
// the letter of its policy (first-come, cyclic or batch) and its calls; a call is a letter and eight
// numbers of one letter each, of which it uses as many as it needs: s shapes the bank, n asks for a
// size, t for turns, w whether a stream waits, p puts and g takes.
#![tactic(auto)]

use bank::{Queue, QueueBank};
use batch::BatchBank;
use cyclic::CyclicBank;
use first_come::FirstComeBank;
use std::alloc::Global;
use std::fmt::Write;

mod answer;
mod call;
#[cfg(test)]
mod tests;

use call::Call;

fn main(rt: HostRuntime) -> anyhow::Result<()> {
    for line in rt.lines(rt.alloc()) {
        let line = line?;
        let answers = life(rt.alloc(), line.as_str().as_bytes())?;
        println!(rt; "{answers}")?;
    }
    Ok(())
}

// The letters are how a line is written; a bank of each policy is a type, so no value stands for one.
fn life(heap: Global, line: &[u8]) -> anyhow::Result<String> {
    match line {
        [b'f', calls @ ..] => play(heap, FirstComeBank::new(), calls),
        [b'c', calls @ ..] => play(heap, CyclicBank::new(), calls),
        [b'b', calls @ ..] => play(heap, BatchBank::new(), calls),
        _ => Ok(String::from_str(heap, "no such policy")?),
    }
}

// The answers to the calls, a space before each.
fn play<Q: Queue>(heap: Global, mut bank: QueueBank<Q>, calls: &[u8]) -> anyhow::Result<String> {
    let mut answers = String::new(heap);
    for call in calls.chunks(9) {
        match Call::try_from(call) {
            Ok(call) => write!(answers, " {}", call.play(&mut bank))?,
            Err(unreadable) => write!(answers, " {unreadable}")?,
        }
    }
    Ok(answers)
}
