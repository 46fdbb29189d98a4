// What the operators take and give.
use njs_text::Text;
use njs_value::Cause;

/// An operand: a value that is no object, with the text itself.
#[derive(Clone, Copy, Debug)]
pub enum Prim<'a> {
    Undefined,
    Null,
    Bool(bool),
    /// From `-MAX_SAFE` to `MAX_SAFE`.
    Num(i64),
    Str(&'a Text),
}

/// What an operator gives.
#[derive(Debug, Drop)]
pub enum OpValue {
    Undefined,
    Null,
    Bool(bool),
    /// From `-MAX_SAFE` to `MAX_SAFE`.
    Num(i64),
    Str(Text),
}

/// Why an operator gives nothing.
#[derive(Clone, Copy, Debug, PartialEq, Eq)]
pub enum OpStop {
    /// The script is to see an error of this cause.
    Throw(Cause),
    /// A growth was refused.
    NoMemory,
}
