ghost use Rattle.std.specs.Prelude.{◌≡◌, Some};
ghost use Rattle.bankcases.specs.Played.{Played};
ghost use Rattle.bankcases.specs.Shown.{unreadable_text};
ghost use Rattle.bankcases.specs.Written.{call_written, number_of_letter, numbers_of};

use crate::answer::Answer;
use bank::{Bank, Queue, QueueBank};
use std::fmt;

// A call of a bank.
#[derive(Clone, Copy)]
pub enum Call {
    Shape([usize; 8]),
    Size { master: usize },
    Turns { master: usize, stream: usize },
    Waits { master: usize, stream: usize },
    Put { master: usize, stream: usize },
    Take { master: usize },
}

// Why what is written is no call.
#[derive(Clone, Copy, Debug)]
pub enum Unreadable {
    CutShort,
    NoSuchCall,
}

impl TryFrom<&[u8]> for Call {
    type Error = Unreadable;

    ghost try_from_gives = { λ written r. r ≡ call_written written.now };

    fn try_from(written: &[u8]) -> Result<Call, Unreadable> {
        let [letter, digits @ ..] = written else {
            return Err(Unreadable::CutShort);
        };
        let numbers = numbers(digits)?;
        let [master, stream, ..] = numbers;
        // The letters are how a line is written, and are read here alone.
        match *letter {
            b's' => Ok(Call::Shape(numbers)),
            b'n' => Ok(Call::Size { master }),
            b't' => Ok(Call::Turns { master, stream }),
            b'w' => Ok(Call::Waits { master, stream }),
            b'p' => Ok(Call::Put { master, stream }),
            b'g' => Ok(Call::Take { master }),
            _ => Err(Unreadable::NoSuchCall),
        }
    }
}

impl Call {
    // What the bank answers to the call.
    pub fn play<Q: Queue>(self, bank: &mut QueueBank<Q>) -> Answer
        ensures { Played Q.Queue.line Q.Queue.starts Q.Queue.puts Q.Queue.takes bank.old self result bank.new }
    {
        match self {
            Call::Shape(sizes) => Answer::Shaped(bank.shape(sizes)),
            Call::Size { master } => Answer::Count(bank.size(master)),
            Call::Turns { master, stream } => Answer::Count(bank.turns(master, stream)),
            Call::Waits { master, stream } => Answer::Told(bank.waits(master, stream)),
            Call::Put { master, stream } => Answer::Told(bank.put(master, stream)),
            Call::Take { master } => Answer::Given(bank.take(master)),
        }
    }
}

// The numbers that eight letters stand for.
fn numbers(letters: &[u8]) -> Result<[usize; 8], Unreadable>
    ensures { result ≡ numbers_of letters.now }
{
    let letters = <[u8; 8]>::try_from(letters).map_err(|_| Unreadable::CutShort)?;
    Ok(letters.map(number))
}

// The number that a letter stands for: a digit, or one far out of range.
fn number(letter: u8) -> usize
    ensures { result ≡ number_of_letter letter }
{
    match letter {
        b'0'..=b'9' => usize::from(letter - b'0'),
        b'h' => 256,
        b'i' => 4_294_967_296,
        _ => usize::MAX,
    }
}

impl fmt::Display for Unreadable {
    ghost output = { λ u. Some (unreadable_text u) };

    fn fmt<W: fmt::Write>(&self, f: &mut fmt::Formatter<W>) -> fmt::Result {
        match self {
            Unreadable::CutShort => write!(f, "cut short"),
            Unreadable::NoSuchCall => write!(f, "no such call"),
        }
    }
}
