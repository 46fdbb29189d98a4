use njs_tree::{Keyword, Mark};

/// What the grammar tells tokens apart by (ECMA-262 5.1 §5.1.2): a name, a number and a string without what they stand for.
#[derive(Clone, Copy, Debug, PartialEq, Eq)]
pub enum Terminal {
    Name,
    Reserved(Keyword),
    Number,
    Str,
    Mark(Mark),
    End,
}
