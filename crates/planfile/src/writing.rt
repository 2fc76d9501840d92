// Writing a plan file: each record writer is handed the rest of the buffer behind the record before.
ghost use Rattle.std.specs.Prelude.{◌≡◌, ℕ, ◌≤◌, List, length};
ghost use Rattle.std.specs.List.{flat_map};
ghost use Rattle.plan.specs.Views.{cycle_of, net, station_of, stream_of};
ghost use Rattle.planfile.specs.declared.TheConstants.{LONGEST};
ghost use Rattle.planfile.specs.declared.records.Record.TheVariants.{Low};
ghost use Rattle.planfile.specs.Format.{encoded, high_record, record_bytes, station_bytes};
ghost use Rattle.planfile.specs.Laying.{Put, Wrote};

use crate::VERSION;
use crate::records::Record;
use plan::{HighStream, LowStream, Master, Plan};
use refusal::Refusal;

// What can be written: a stream, or a master with its streams.
trait Encode {
    ghost bytes: { Self → List ℕ };

    // Puts its bytes in front; the answer is how many they are.
    fn put(&self, out: &mut [u8]) -> usize
        requires { length (bytes self.now) ≤ length out.old }
        ensures { Put (bytes self.now) out.old out.new result };
}

impl Encode for HighStream {
    ghost bytes = { λ s. record_bytes (high_record (stream_of s)) };

    fn put(&self, out: &mut [u8]) -> usize {
        Record::High(self.times()).put(out)
    }
}

impl Encode for LowStream {
    ghost bytes = { λ s. record_bytes (Low (cycle_of s)) };

    fn put(&self, out: &mut [u8]) -> usize {
        let cycle = self.cycle();
        Record::Low { cycle }.put(out)
    }
}

impl Encode for Master {
    ghost bytes = { λ m. station_bytes (station_of m) };

    // Its own record, and then its high streams before its low ones.
    fn put(&self, out: &mut [u8]) -> usize {
        let hop = self.hop();
        let mut at = Record::Master { hop }.put(out);
        at += put_all(&mut out[at..], self.highs());
        at += put_all(&mut out[at..], self.lows());
        at
    }
}

// Puts the bytes of all items in front, one behind the other.
fn put_all<T: Encode>(out: &mut [u8], items: &[T]) -> usize
    requires { length (flat_map T.Encode.bytes items.now) ≤ length out.old }
    ensures { Put (flat_map T.Encode.bytes items.now) out.old out.new result }
{
    // Each item is lent the rest of the buffer behind the one before it. In a chain that index would
    // depend on what the closure changes.
    let mut at = 0;
    for item in items {
        at += item.put(&mut out[at..]);
    }
    at
}

// The version and the record of the ring.
const HEAD: usize = 8;

// The length of a master's records.
fn master_size(master: &Master) -> usize
    ensures value { result ≡ length (station_bytes (station_of master.now)) }
    ensures most { result ≤ 129 }
{
    5 + 13 * master.highs().len() + 5 * master.lows().len()
}

/// How many bytes the file of a plan has: at most `LONGEST`, which is 1,040.
pub fn size(plan: &Plan) -> usize
    ensures value { result ≡ length (encoded (net plan.now)) }
    ensures most { result ≤ 1040 }
    ensures longest { result ≤ LONGEST }
{
    HEAD + plan.masters().iter().map(master_size).sum::<usize>()
}

/// Writes the file of a plan to the front of a buffer; bytes behind it stay. The answer is how many
/// bytes it has. A buffer that is too short is refused, with the bytes needed, and stays as it was.
pub fn write(plan: &Plan, out: &mut [u8]) -> Result<usize, Refusal>
    ensures { Wrote (encoded (net plan.now)) out.old out.new result }
{
    let needed = size(plan);
    if out.len() < needed {
        return Err(Refusal::BufferTooShort { needed });
    }
    out[0] = VERSION;
    let target = plan.target();
    let mut at = 1;
    at += Record::Ring { target }.put(&mut out[at..]);
    at += put_all(&mut out[at..], plan.masters());
    Ok(at)
}
