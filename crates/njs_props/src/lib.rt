//! Properties by name, in the order in which they were created.
#![tactic(auto)]

mod keys;
mod map;
mod names;
#[cfg(test)]
mod tests;

pub use map::{PropMap, Property};
pub use names::array_index;
