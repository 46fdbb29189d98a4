//! Shared dictionaries, as njs has them: what is asked and answered, what a zone is, and a plain zone, which is a list
//! that is searched whole.
#![tactic(auto)]

mod answer;
mod change;
mod dicts;
mod kept;
mod laws;
mod operation;
#[cfg(test)]
mod tests;
mod zone;

pub use dicts::{Dicts, PlainDicts};
pub use laws::expired_entries_are_gone;
pub use operation::{DictOp, DictReply, DictValue, Entry, Kept, ZoneSpec};
pub use zone::{PlainZone, ZoneState};
