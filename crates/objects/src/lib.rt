//! The objects that requests reach: what a request asks for there, the values that a write brings, and what a read
//! shows of a channel.
//!
//! docs/RULES.md, "Requests and objects", has the rules; its table of objects has index and subindex of each.
#![tactic(auto)]

mod access;
mod object;
mod part;
mod shown;
mod value;

pub use access::{Access, Content, Shown, Written, check_access, place_of};
pub use object::Object;
pub use part::Part;
pub use shown::read_part;
pub use value::{check_setpoint, write_content};
