//! Tests on worked cases of the kinds, the frames, the judging and the teach (docs/RULES.md).
//!
//! They stand in a crate of their own, as the proof of a crate with tests is made twice.
#![tactic(auto)]

#[cfg(test)]
mod frames;
#[cfg(test)]
mod judging;
#[cfg(test)]
mod teaching;
#[cfg(test)]
mod values;
