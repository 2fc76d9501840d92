// The plan file: a version byte, then records, all numbers with the higher byte first.
#![tactic(auto)]

mod draft;
mod reading;
mod records;
mod writing;

pub use reading::read;
pub use writing::{size, write};

/// The first byte of a plan file.
pub const VERSION: u8 = 1;

/// How many bytes the longest plan file has: 8 masters with 8 high and 4 low streams each.
pub const LONGEST: usize = 1_040;
