//! The operators of the language over values that are no objects (ECMA-262 5.1 §11.4 to §11.10), on whole numbers.
#![tactic(auto)]

mod arithmetic;
mod comparison;
mod conversion;
mod table;
#[cfg(test)]
mod tests;
mod values;

pub use conversion::text_of;
pub use table::{binary, unary};
pub use values::{OpStop, OpValue, Prim};
