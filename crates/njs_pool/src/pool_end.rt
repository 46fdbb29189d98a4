// Why a pool ended.

/// Why the workers ended.
#[derive(Clone, Copy, Debug, PartialEq, Eq)]
pub enum PoolEnd {
    /// The listener said that no more connections will come.
    Closed,
    /// The listener failed.
    Failed,
    /// A growth was refused: the workers' own, or the listener's.
    NoMemory,
}
