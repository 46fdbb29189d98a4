//! The code of expressions, written from the end of a function to its beginning (ECMA-262 5.1 §11).
#![tactic(auto)]

mod closure;
mod count;
mod expression;
mod fault;
mod functions;
mod here;
mod operators;
mod reference;
mod writer;

pub use closure::{copy_held, pass_expression, pass_function, pass_statement, pass_statements};
pub use count::{uses_in, uses_in_function};
pub use expression::{target, value};
pub use fault::Fault;
pub use functions::functions_in;
pub use here::Here;
pub use reference::{Reference, assign_to, over, reference_of};
pub use writer::{MAX_OPS, Mark, Writer};
