//! The tokens, trees, grammar and early refusals of scripts (ECMA-262 5.1 §7, §11 to §14, §16).
#![tactic(auto)]

mod characters;
mod checked;
mod keywords;
mod names;
#[cfg(test)]
mod tests;
mod token;
mod tree;

pub use characters::{is_letter, is_line_end, is_part, is_white};
pub use checked::Checked;
pub use keywords::keyword_of;
pub use names::is_name;
pub use token::{EarlyFault, EarlyKind, Joint, Keyword, Kind, LexFault, Mark, Token};
pub use tree::{
    BinaryOp, Case, Expr, ExprNode, ForFirst, ForInHead, FunctionTree, Item, LogicalOp, Script,
    Stmt, StmtNode, UnaryOp, UpdateOp,
};
