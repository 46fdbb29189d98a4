// What stands while the code of a function runs.
ghost use Rattle.std.specs.Prelude.{◌≡◌, []};

use crate::Pile;
use njs_text::{List, Text};
use njs_value::{ScopeId, Value};
use std::alloc::Global;

/// How a part of the code ended that leads out of it (ECMA-262 5.1 §8.9). The labels are those of the code.
#[derive(Clone, Copy)]
pub enum Ending<'a> {
    /// It came to its end.
    Normal,
    Returned(Value),
    Broken(&'a Option<Text>),
    Continued(&'a Option<Text>),
    Thrown(Value),
}

/// A value whose names `for in` goes through, and those that are left, the next one last.
#[derive(Drop)]
pub struct Listing {
    pub value: Value,
    pub names: Vec<Text>,
}

/// Operands, the scopes that were entered in this call, the lists of names, and the endings that wait for the end of a
/// `finally`.
#[derive(Drop)]
pub struct Stacks<'a> {
    pub operands: Pile<Value>,
    pub scopes: Pile<ScopeId>,
    pub lists: Vec<Listing>,
    pub endings: Pile<Ending<'a>>,
}
