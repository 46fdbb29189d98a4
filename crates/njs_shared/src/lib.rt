//! Objects, scopes, and a heap that nothing changes, which machines share.
#![tactic(auto)]

mod object;
mod shared;
#[cfg(test)]
mod tests;

pub use njs_layer::Copied;
pub use object::{Inner, Object, Scope};
pub use shared::Shared;
