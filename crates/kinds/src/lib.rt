//! The kinds of measured value: what each must be able to do, and what it means.
//!
//! docs/RULES.md, "Kinds of measured value", has the rules.
#![tactic(auto)]

mod float32_t;
mod integer_t16;
mod integer_t32;
mod kind;

pub use float32_t::Float32T;
pub use integer_t16::IntegerT16;
pub use integer_t32::IntegerT32;
pub use kind::Kind;
