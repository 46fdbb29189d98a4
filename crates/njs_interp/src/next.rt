// Where code goes on.
use crate::Ending;
use njs_code::Address;

/// Where code goes on after an operation that may lead elsewhere.
#[derive(Clone, Copy)]
pub enum Next<'a> {
    /// At the operation behind it.
    On,
    To(Address),
    /// Out of the part of the code around it.
    Out(Ending<'a>),
}
