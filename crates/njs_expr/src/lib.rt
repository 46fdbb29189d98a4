//! Reads the expressions and statements of scripts (ECMA-262 5.1 §11 to §14).
#![tactic(auto)]

mod branches;
mod chains;
mod cursor;
mod declarations;
mod descent;
mod functions;
mod grammar;
mod heads;
mod jumps;
mod laws;
mod leads;
mod literals;
mod loops;
mod nodes;
mod operators;
mod places;
mod primaries;
mod statements;
mod stop;
mod tables;
mod terminal;
mod trees;
mod tries;
mod words;

pub use laws::{one_expression_per_place, one_item_per_place, one_tree_per_text};
pub use places::{expression, item};
pub use stop::ParseStop;
pub use terminal::Terminal;
