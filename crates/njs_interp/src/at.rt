// An operation, where it stands.
use njs_code::{FunctionCode, Op};

/// An operation of a function of a module.
#[derive(Drop)]
pub struct At<'a> {
    pub functions: &'a [FunctionCode],
    pub function: &'a FunctionCode,
    pub op: &'a Op,
}
