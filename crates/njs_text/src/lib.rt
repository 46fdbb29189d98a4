//! Texts, lists, counters and want of memory: what every crate of the engine stands on.
#![tactic(auto)]

mod chars;
mod list;
mod memory;
mod steps;
mod stored;
#[cfg(test)]
mod tests;
mod text;

pub use list::List;
pub use memory::NoMemory;
pub use steps::Steps;
pub use text::{Text, TextFault};
