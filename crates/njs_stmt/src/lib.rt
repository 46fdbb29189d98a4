//! Reads scripts (ECMA-262 5.1 §14).
#![tactic(auto)]

mod brackets;
mod fault;
mod items;
mod lines;
mod lookup;
mod parser;
#[cfg(test)]
mod tests;
mod tokens;

pub use brackets::too_deep;
pub use fault::ScriptFault;
pub use njs_expr::one_tree_per_text;
pub use parser::parse;
