//! Teaching a setpoint: the commands, the captures and the machine that they drive.
//!
//! docs/RULES.md, "Teach", has the rules. A fault is at the place that the caller hands in.
#![tactic(auto)]

mod capture;
mod command;
mod machine;
mod teaching;
mod terms;

pub use capture::{Captured, Span, with_value};
pub use command::{Command, Setpoint, Step, Teachpoint, command_of};
pub use machine::{Change, Effect, Flags, State, Teachpoints, Verdict};
pub use teaching::{Store, Teach};
pub use terms::Terms;
