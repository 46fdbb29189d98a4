/// Why there is no new caller.
#[derive(Debug, Drop)]
pub enum SplitStop {
    /// The zone has handed out all numbers below 2^32 - 1.
    Spent,
    NoMemory,
}
