//! Cuts a text into tokens (ECMA-262 5.1 §7).
#![tactic(auto)]

mod blanks;
pub mod escapes;
mod lexer;
mod marks;
mod numbers;
pub mod rest;
mod strings;
#[cfg(test)]
mod tests;

pub use lexer::{next, one_token_list_per_text, tokens_stand_for_their_lexemes};
pub use njs_tree::{Kind, LexFault, Mark, Token};
