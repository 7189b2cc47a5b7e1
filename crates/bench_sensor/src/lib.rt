//! A sensor on a bench, which keeps the ticket of its keypad operation. It takes one call at a time, as data, with lent
//! octets and no heap.
//!
//! docs/RULES.md, "Runs", has the rules. Denials are told by their numbers in "Denials".
#![tactic(auto)]

mod bench;
mod call;
mod tickets;

pub use bench::BenchSensor;
pub use call::{Call, Line, Reply, lend_setup};
