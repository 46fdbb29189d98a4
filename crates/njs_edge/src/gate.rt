// What is called before and after each connection.

/// Is called before and after each connection with its number, which counts from 0 in the order of acceptance. It may
/// be shared by several threads, and it may wait.
pub trait Gate {
    /// The connection with this number was accepted, and is about to be handled.
    fn before(&self, number: u64);

    /// The connection with this number was handled.
    fn after(&self, number: u64);
}

/// A gate that stands open: it does nothing.
#[derive(Clone, Copy, Debug)]
pub struct OpenGate;

impl Gate for OpenGate {
    fn before(&self, _number: u64) {}

    fn after(&self, _number: u64) {}
}
