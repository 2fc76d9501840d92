// Reads files in hexadecimal, one to a line of standard input, and answers each with a line: `ok` and
// the bytes that its plan writes, or the number and the place of its refusal.
#![tactic(auto)]

ghost use Rattle.std.specs.Prelude.{◌<◌, IfOk};

use planfile::LONGEST;
use refusal::Refusal;
use std::alloc::{AllocError, AllocFailed, Global};
use std::fmt;

#[cfg(test)]
mod tests;

// Why the file of a line is not written back.
#[derive(Clone, Copy)]
enum Failure {
    NotHexadecimal,
    Refused(Refusal),
    OutOfMemory(AllocError),
}

impl From<Refusal> for Failure {
    fn from(refusal: Refusal) -> Failure {
        Failure::Refused(refusal)
    }
}

impl From<AllocError> for Failure {
    fn from(e: AllocError) -> Failure {
        Failure::OutOfMemory(e)
    }
}

impl<T: Drop> From<AllocFailed<T>> for Failure {
    fn from(e: AllocFailed<T>) -> Failure {
        Failure::OutOfMemory(e.into())
    }
}

impl fmt::Display for Failure {
    fn fmt<W: fmt::Write>(&self, f: &mut fmt::Formatter<W>) -> fmt::Result {
        match self {
            Failure::NotHexadecimal => write!(f, "not hexadecimal"),
            Failure::Refused(refusal) => {
                let number = refusal.number();
                let place = refusal.place();
                write!(f, "{number} {place}")
            }
            Failure::OutOfMemory(e) => write!(f, "{e}"),
        }
    }
}

fn main(rt: HostRuntime) -> anyhow::Result<()> {
    for line in rt.lines(rt.alloc()) {
        let line = line?;
        match rewritten(rt.alloc(), line.as_str()) {
            Ok(file) => {
                let digits = hex::encode(rt.alloc(), file.as_slice())?;
                println!(rt; "ok {digits}")?;
            }
            Err(Failure::OutOfMemory(e)) => return Err(e.into()),
            Err(failure) => println!(rt; "{failure}")?,
        }
    }
    Ok(())
}

// The file that the plan of a line's file is written as.
fn rewritten(heap: Global, line: &str) -> Result<Vec<u8>, Failure> {
    let file = bytes(heap, line.as_bytes())?;
    let plan = planfile::read(file.as_slice())?;
    let mut out = vec![in heap; 0; LONGEST]?;
    let len = planfile::write(&plan, out.as_mut_slice())?;
    out.truncate(len);
    Ok(out)
}

// The bytes that pairs of digits stand for. (`hex::decode` takes capitals too, which are no digits
// here.)
fn bytes(heap: Global, digits: &[u8]) -> Result<Vec<u8>, Failure> {
    let mut all = Vec::new(heap);
    for pair in digits.chunks(2) {
        let [high, low] = pair else {
            return Err(Failure::NotHexadecimal);
        };
        all.push(16 * digit(*high)? + digit(*low)?)?;
    }
    Ok(all)
}

// The number of a hexadecimal digit.
fn digit(c: u8) -> Result<u8, Failure>
    ensures { IfOk result (λ d. d < 16) }
{
    match c {
        b'0'..=b'9' => Ok(c - b'0'),
        b'a'..=b'f' => Ok(c - b'a' + 10),
        _ => Err(Failure::NotHexadecimal),
    }
}
