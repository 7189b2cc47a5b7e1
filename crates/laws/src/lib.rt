//! The laws of every list of calls that a sensor takes, and their proofs. They stand in specs/ and proofs/; the crate
//! has no code, and `run` in the crate `days` ensures them.
//!
//! docs/RULES.md, "Runs", has them in words:
//! - foreign calls leave no trace: specs/Strikes.antt
//! - what a teach stores lies within what it captured: specs/Stores.antt
//! - what is stored is what the captured values say: specs/Taught.antt
//! - turns are more than the hysteresis apart: specs/Turns.antt
//! - what was last written stands: specs/Settings.antt
#![tactic(auto)]
