ghost use Rattle.std.specs.Prelude.{Some};
ghost use Rattle.bankcases.specs.Shown.{answer_text};

use refusal::Refusal;
use std::fmt;

// What a bank answers to a call.
#[derive(Clone, Copy)]
pub enum Answer {
    Count(usize),
    Told(bool),
    Given(Option<usize>),
    Shaped(Result<(), Refusal>),
}

impl fmt::Display for Answer {
    ghost output = { λ a. Some (answer_text a) };

    fn fmt<W: fmt::Write>(&self, f: &mut fmt::Formatter<W>) -> fmt::Result {
        match *self {
            Answer::Count(count) => write!(f, "{count}"),
            Answer::Told(yes) => write!(f, "{yes}"),
            Answer::Given(Some(stream)) => write!(f, "{stream}"),
            Answer::Given(None) => write!(f, "none"),
            Answer::Shaped(Ok(())) => write!(f, "shaped"),
            Answer::Shaped(Err(refusal)) => write!(f, "{}", refusal.number()),
        }
    }
}
