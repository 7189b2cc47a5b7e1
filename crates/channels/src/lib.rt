//! Switching channels: how a reading is judged, what each channel signals, and the process data.
//!
//! docs/RULES.md, "Readings and range", "Judging" and "Process data", has the rules.
#![tactic(auto)]

mod range;
mod reading;
mod row;
mod table;

pub use range::Range;
pub use reading::{Reading, process_data_length};
pub use row::Row;
pub use table::Table;
