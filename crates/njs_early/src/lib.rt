//! The early refusals of scripts (ECMA-262 5.1 §16): what the grammar lets pass and strict mode does not.
#![tactic(auto)]

mod around;
mod names;
mod own;
mod script;
mod walk;

pub use njs_tree::{EarlyFault, EarlyKind};
pub use script::check;
