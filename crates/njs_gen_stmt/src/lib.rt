//! The code of statements, functions and the bodies of modules (ECMA-262 5.1 §10.4 to §10.6, §12 to §14).
#![tactic(auto)]

mod address;
mod function;
mod here;
mod labels;
mod parts;
mod script;
pub mod size;
mod statement;
mod switch;
#[cfg(test)]
mod tests;
mod walk;

pub use function::{Declaration, Known, function_ops, module_ops};
pub use script::{GenFault, generate};
