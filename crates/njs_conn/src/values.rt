// The values and answers of handlers, as far as there are any yet.
ghost use Rattle.std.specs.Prelude.{◌≤◌, ◌<◌};

use njs_text::Text;
use njs_tree::FunctionTree;

/// A value (ECMA-262 5.1 §8), as far as handlers have any yet.
#[derive(Clone, Copy)]
pub(crate) enum Value<'a> {
    Undefined,
    Number(i64),
    String(&'a Text),
    Function(&'a FunctionTree),
    /// The object `r` of njs.
    Request,
    /// Its method `return`.
    ReturnMethod,
}

/// What a handler answers: a status, and the text of the body.
#[derive(Clone, Copy)]
pub(crate) struct Answer<'a> {
    pub status: u16,
    pub body: &'a Text,
    ghost low: { 100 ≤ status },
    ghost high: { status < 1000 },
}
