// Directives, and a tree of them as a list of pieces.
use njs_text::{List, Text};

/// A directive: its first word, which names it, the words after that, and the line of the first.
#[derive(Debug, Drop)]
pub struct Directive {
    pub line: u32,
    pub name: Text,
    pub words: List<Text>,
}

/// A piece of a tree of directives. Blocks may lie in one another as deep as a file is long, so a tree is kept as the
/// list of its pieces in the order of the file, and nothing recurs over it.
#[derive(Debug, Drop)]
pub enum Piece {
    /// A directive without a block.
    Plain(Directive),
    /// A directive with a block; what the block holds comes next.
    Open(Directive),
    /// The end of a block.
    Close,
}
