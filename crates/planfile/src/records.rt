// A record of a plan file.
ghost use Rattle.std.specs.Prelude.{◌≡◌, ◌+◌, ◌<◌, ◌≤◌, length, MatchOption, ◌≢◌};
ghost use Rattle.planfile.specs.Format.{contents, framed, record_bytes};
ghost use Rattle.planfile.specs.Laying.{Put};

use plan::Times;

// The kinds of record, as a file has them in front of the bodies. In the code a kind is a case of
// `Record`.
const RING: u8 = 1;

const MASTER: u8 = 2;

const HIGH: u8 = 3;

const LOW: u8 = 4;

// What a record tells, in plain numbers that may still be out of range.
#[derive(Clone, Copy)]
pub enum Record {
    Ring { target: u32 },
    Master { hop: u16 },
    High(Times),
    Low { cycle: u16 },
}

impl Record {
    // The record with this kind and body; none where the kind is unknown or the length is not its own.
    pub(crate) fn parse(bytes: &[u8]) -> Option<Record>
        ensures { MatchOption result ((x : Record) → contents x ≢ bytes.now) (λ x. contents x ≡ bytes.now) }
    {
        match *bytes {
            [RING, a, b, c, d] => Some(Record::Ring {
                target: u32::from_be_bytes([a, b, c, d]),
            }),
            [MASTER, a, b] => Some(Record::Master {
                hop: u16::from_be_bytes([a, b]),
            }),
            [HIGH, c0, c1, d0, d1, d2, d3, g0, g1, v0, v1] => Some(Record::High(Times {
                cycle: u16::from_be_bytes([c0, c1]),
                deadline: u32::from_be_bytes([d0, d1, d2, d3]),
                generation: u16::from_be_bytes([g0, g1]),
                delivery: u16::from_be_bytes([v0, v1]),
            })),
            [LOW, a, b] => Some(Record::Low {
                cycle: u16::from_be_bytes([a, b]),
            }),
            _ => None,
        }
    }

    // Puts the record in front; the answer is how many bytes it has.
    pub(crate) fn put(self, out: &mut [u8]) -> usize
        requires { length (record_bytes self) ≤ length out.old }
        ensures { Put (record_bytes self) out.old out.new result }
    {
        match self {
            Record::Ring { target } => {
                let [a, b, c, d] = target.to_be_bytes();
                put_framed(out, [RING, a, b, c, d])
            }
            Record::Master { hop } => {
                let [a, b] = hop.to_be_bytes();
                put_framed(out, [MASTER, a, b])
            }
            Record::High(times) => {
                let [c0, c1] = times.cycle.to_be_bytes();
                let [d0, d1, d2, d3] = times.deadline.to_be_bytes();
                let [g0, g1] = times.generation.to_be_bytes();
                let [v0, v1] = times.delivery.to_be_bytes();
                put_framed(out, [HIGH, c0, c1, d0, d1, d2, d3, g0, g1, v0, v1])
            }
            Record::Low { cycle } => {
                let [a, b] = cycle.to_be_bytes();
                put_framed(out, [LOW, a, b])
            }
        }
    }
}

// Puts the length of a record's contents in front, and the contents behind it.
fn put_framed<const N: usize>(out: &mut [u8], contents: [u8; N]) -> usize
    requires short { N < 65536 }
    requires room { N + 2 ≤ length out.old }
    ensures { Put (framed contents.entry) out.old out.new result }
{
    // `as` loses nothing here, and `try_from` would bring a case that never comes.
    out[..2].copy_from_slice(&(N as u16).to_be_bytes());
    out[2..N + 2].copy_from_slice(&contents);
    N + 2
}
