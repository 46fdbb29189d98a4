//! A list over a shared one: what is written is copied first.
#![tactic(auto)]

mod layered;
#[cfg(test)]
mod tests;

pub use layered::{Change, Copied, Layered};
