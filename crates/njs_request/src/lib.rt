//! The object of a request, which its handler answers by.
#![tactic(auto)]

mod answer;
#[cfg(test)]
mod callers;
mod host;
mod objects;
mod record;
mod rows;
mod status;
#[cfg(test)]
mod tests;

pub use host::HasRecord;
pub use objects::{make, prototype};
pub use record::Record;
pub use rows::{RETURN, call, can_construct};
