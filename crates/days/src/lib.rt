//! A list of calls on a bench sensor, each with its reply and with every channel after it, and the laws that hold of
//! every list.
//!
//! docs/RULES.md, "Runs", has the rules and the laws.
#![tactic(auto)]

mod day;
mod entry;

pub use day::run;
pub use entry::{Channel, Entry};
