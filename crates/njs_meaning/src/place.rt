// Where a name stands.

/// Where the value of a name stands, as the scopes around it tell (ECMA-262 5.1 §10.2.2.1): the nearest scope that has the
/// name decides. What can't be assigned is so told.
#[derive(Clone, Copy, Debug, PartialEq, Eq)]
pub enum Place {
    /// A slot of the scope that is so many scopes further out; 0 is the innermost.
    Slot {
        up: u32,
        slot: u32,
        assignable: bool,
    },
    /// A slot of the outermost scope.
    Global {
        slot: u32,
        assignable: bool,
    },
    /// No scope has the name.
    Nowhere,
}
