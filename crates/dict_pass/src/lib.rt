//! Callers of several zones, which threads share.
#![tactic(auto)]

mod pass;
mod seats;
#[cfg(test)]
mod tests;
mod zones;

pub use pass::Pass;
pub use zones::{Passes, Zones};
