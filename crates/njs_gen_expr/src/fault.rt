// Why the code of a function was not written.

/// Why the code of a function was not written.
#[derive(Clone, Copy, Debug, PartialEq, Eq)]
pub enum Fault {
    /// A growth was refused, or more operands would stand than a number can tell.
    NoMemory,
    /// The function would have more than 16,777,216 operations.
    TooLong,
}
