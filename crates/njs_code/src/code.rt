// The code of a script.
use crate::Op;
use njs_text::List;

/// The code of one function.
#[derive(Drop)]
pub struct FunctionCode {
    pub params: u32,
    /// Whether a function made of it has a `prototype`, and may be called by `new`.
    pub builds: bool,
    /// How many slots the scope of its calls has, and then each of the scopes around it, up to the outermost.
    pub slots: List<u32>,
    /// The operations in the order in which they stand; the first one is where a call begins.
    pub ops: List<Op>,
}

/// The code of a script: its functions in order of the text, and the body of the module.
#[derive(Drop)]
pub struct Code {
    pub functions: List<FunctionCode>,
    pub body: FunctionCode,
}
