//! The configuration of a server, as nginx and njs have it.
#![tactic(auto)]

mod build;
mod characters;
mod conf;
mod directive;
mod fault;
mod file;
mod form;
mod numbers;
mod rules;
mod scan;
mod table;
#[cfg(test)]
mod tests;
mod values;
mod walk;
mod words;
mod zone;

pub use conf::{Conf, Import, Location};
pub use fault::ConfFault;
pub use file::{one_tree_per_file, read};
