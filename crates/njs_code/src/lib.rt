//! The code of scripts, as the interpreter runs it, and the rule by which it never meets a missing operand, slot or operation.
#![tactic(auto)]

mod code;
mod depth;
mod effects;
mod law;
mod op;
mod place;
mod rule;
mod slots;
mod valid;

pub use code::{Code, FunctionCode};
pub use law::valid_code_keeps_its_rule;
pub use op::{Address, Depth, Failure, Kind, Op};
pub use rule::validate;
pub use valid::ValidCode;

#[cfg(test)]
mod tests;
