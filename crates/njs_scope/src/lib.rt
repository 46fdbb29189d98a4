//! The scopes of a script with the slots of each, and where the names stand that it uses.
#![tactic(auto)]

mod around;
mod front;
mod known;
mod mentions;
mod names;
mod own;
mod scope;
mod script;
mod walk;

pub use around::slot_of;
pub use known::Plan;
pub use script::plan;
