// What a refusal is: one case for each thing that can be wrong, with the place where it is.
// Every layer answers this one type, so `?` carries a refusal up whole.
#![tactic(auto)]

ghost use Rattle.std.specs.Prelude.{◌≡◌, Some};
ghost use Rattle.refusal.specs.Refusals.{layer_of, number_of, place_of, reason_of};
ghost use Rattle.refusal.specs.Shown.{layer_text, place_text, refusal_text};

use std::error::Error;
use std::fmt;

/// The part of the product that refuses.
#[derive(Clone, Copy, Debug, PartialEq, Eq)]
pub enum Layer {
    File,
    Plan,
    Bank,
}

/// Where something is wrong.
// No `Option` of a number: that has no text of its own, and a master's stream will be a place too.
#[derive(Clone, Copy, Debug, PartialEq, Eq)]
pub enum Place {
    /// No place belongs to it: shown as 0.
    Nowhere,
    /// A byte of a file, or a count of bytes.
    At(usize),
}

/// Why a call is turned down.
#[derive(Clone, Copy, Debug, PartialEq, Eq)]
pub enum Refusal {
    /// The file has no byte, or its version is not 1.
    BadVersion,
    /// Fewer bytes are left than the record at `at` announces, or than its length field needs.
    CutShort { at: usize },
    /// The record at `at` has an unknown kind, a wrong length, or stands in the wrong order.
    BadRecord { at: usize },
    /// A number of the record at `at` is out of its range.
    OutOfRange { at: usize },
    /// The record at `at` is a ninth master, a ninth high stream or a fifth low stream.
    TooMany { at: usize },
    /// The file, which ends at `at`, has no master.
    NoMaster { at: usize },
    /// The buffer is shorter than the `needed` bytes.
    BufferTooShort { needed: usize },
    /// The target is above 16,777,215.
    TargetTooLarge,
    /// A bank is to have more than eight streams at a master.
    SizeTooLarge,
    /// A bank is to be shaped while a stream waits in it.
    ShapeWhileWaiting,
}

impl Refusal {
    /// The layer that refuses.
    pub fn layer(&self) -> Layer
        ensures { result ≡ layer_of self.now }
    {
        match self {
            Refusal::BadVersion => Layer::File,
            Refusal::CutShort { .. } => Layer::File,
            Refusal::BadRecord { .. } => Layer::File,
            Refusal::OutOfRange { .. } => Layer::File,
            Refusal::TooMany { .. } => Layer::File,
            Refusal::NoMaster { .. } => Layer::File,
            Refusal::BufferTooShort { .. } => Layer::File,
            Refusal::TargetTooLarge => Layer::Plan,
            Refusal::SizeTooLarge => Layer::Bank,
            Refusal::ShapeWhileWaiting => Layer::Bank,
        }
    }

    /// The number that the refusal is known by.
    pub fn number(&self) -> u8
        ensures { result ≡ number_of self.now }
    {
        match self {
            Refusal::BadVersion => 1,
            Refusal::CutShort { .. } => 2,
            Refusal::BadRecord { .. } => 3,
            Refusal::OutOfRange { .. } => 4,
            Refusal::TooMany { .. } => 5,
            Refusal::NoMaster { .. } => 6,
            Refusal::BufferTooShort { .. } => 11,
            Refusal::TargetTooLarge => 21,
            Refusal::SizeTooLarge => 51,
            Refusal::ShapeWhileWaiting => 52,
        }
    }

    /// Where it is wrong.
    pub fn place(&self) -> Place
        ensures { result ≡ place_of self.now }
    {
        match self {
            Refusal::BadVersion => Place::At(0),
            Refusal::CutShort { at } => Place::At(*at),
            Refusal::BadRecord { at } => Place::At(*at),
            Refusal::OutOfRange { at } => Place::At(*at),
            Refusal::TooMany { at } => Place::At(*at),
            Refusal::NoMaster { at } => Place::At(*at),
            Refusal::BufferTooShort { needed } => Place::At(*needed),
            Refusal::TargetTooLarge => Place::Nowhere,
            Refusal::SizeTooLarge => Place::Nowhere,
            Refusal::ShapeWhileWaiting => Place::Nowhere,
        }
    }

    /// What is wrong, in a sentence.
    pub fn reason(&self) -> &'static str
        ensures { result.now ≡ reason_of self.now }
    {
        match self {
            Refusal::BadVersion => "no byte, or a version other than 1",
            Refusal::CutShort { .. } =>
                "fewer bytes left than the record announces or its length field needs",
            Refusal::BadRecord { .. } => "unknown kind, wrong length or wrong order",
            Refusal::OutOfRange { .. } => "a number out of range",
            Refusal::TooMany { .. } => "a ninth master, ninth high stream or fifth low stream",
            Refusal::NoMaster { .. } => "no master",
            Refusal::BufferTooShort { .. } => "the buffer is shorter than the bytes needed",
            Refusal::TargetTooLarge => "a target above 16777215",
            Refusal::SizeTooLarge => "a size above 8",
            Refusal::ShapeWhileWaiting => "a stream waits in the bank that is to be shaped",
        }
    }
}

impl fmt::Display for Layer {
    ghost output = { λ l. Some (layer_text l) };

    fn fmt<W: fmt::Write>(&self, f: &mut fmt::Formatter<W>) -> fmt::Result {
        match self {
            Layer::File => write!(f, "file"),
            Layer::Plan => write!(f, "plan"),
            Layer::Bank => write!(f, "bank"),
        }
    }
}

impl fmt::Display for Place {
    ghost output = { λ p. Some (place_text p) };

    fn fmt<W: fmt::Write>(&self, f: &mut fmt::Formatter<W>) -> fmt::Result {
        match self {
            Place::Nowhere => write!(f, "0"),
            Place::At(n) => write!(f, "{n}"),
        }
    }
}

impl fmt::Display for Refusal {
    ghost output = { λ r. Some (refusal_text r) };

    fn fmt<W: fmt::Write>(&self, f: &mut fmt::Formatter<W>) -> fmt::Result {
        let layer = self.layer();
        let number = self.number();
        let place = self.place();
        let reason = self.reason();
        write!(
            f,
            "refused by {layer}, number {number}, place {place}: {reason}"
        )
    }
}

impl Error for Refusal {}
