// A call of a function.
use njs_value::Value;

/// A call: the module whose function is called, `this` and the arguments.
#[derive(Drop)]
pub struct InCall<'a> {
    pub unit: u32,
    pub this: Value,
    pub args: &'a [Value],
}
