//! One sensor: set-up, samples and process data, requests, keypad operations and the warm restart, over octets and
//! buffers that the caller lends.
//!
//! docs/RULES.md, "Set-up", "Sample", "Requests and objects", "Keypad operations" and "Warm restart", has the rules.
//! Denials are told by their numbers in "Denials".
#![tactic(auto)]

mod access;
mod device;
mod operations;
mod reads;
mod respond;
mod restart;
mod sensor;
mod setup;

pub use sensor::Sensor;
pub use setup::Setup;
