//! What a terminal is to the rules.
ghost use Rattle.std.specs.Prelude.{◌≡◌, ◌≤◌, Bool, false};
ghost use Rattle.njs_tree.specs.Lexemes.{Lexeme};
ghost use Rattle.njs_tree.specs.Symbols as spec;
ghost use Rattle.njs_tree.specs.Grammar as grammar;
ghost use Rattle.njs_expr.specs.Readers.{like, sees, sees_word};
ghost use Rattle.njs_expr.specs.Expressions as rule;

use crate::Terminal;
use njs_tree::{
    BinaryOp, Expr, ExprNode, Joint, Keyword, LogicalOp, Mark, Stmt, StmtNode, UnaryOp, UpdateOp,
};

fn mark_joint(mark: Mark) -> Joint
    ensures { (with_in : Bool) → result ≡ spec.joint_of with_in (Lexeme.mark mark) }
{
    match mark {
        Mark::Comma => Joint::Comma,
        Mark::Question => Joint::Question,
        Mark::Assign => Joint::Assign(None),
        Mark::AddAssign => Joint::Assign(Some(BinaryOp::Add)),
        Mark::SubAssign => Joint::Assign(Some(BinaryOp::Sub)),
        Mark::MulAssign => Joint::Assign(Some(BinaryOp::Mul)),
        Mark::DivAssign => Joint::Assign(Some(BinaryOp::Div)),
        Mark::RemAssign => Joint::Assign(Some(BinaryOp::Rem)),
        Mark::ShlAssign => Joint::Assign(Some(BinaryOp::Shl)),
        Mark::ShrAssign => Joint::Assign(Some(BinaryOp::Shr)),
        Mark::UShrAssign => Joint::Assign(Some(BinaryOp::UShr)),
        Mark::AndAssign => Joint::Assign(Some(BinaryOp::BitAnd)),
        Mark::OrAssign => Joint::Assign(Some(BinaryOp::BitOr)),
        Mark::XorAssign => Joint::Assign(Some(BinaryOp::BitXor)),
        Mark::Or => Joint::Logical(LogicalOp::Or),
        Mark::And => Joint::Logical(LogicalOp::And),
        Mark::BitOr => Joint::Binary(BinaryOp::BitOr),
        Mark::BitXor => Joint::Binary(BinaryOp::BitXor),
        Mark::BitAnd => Joint::Binary(BinaryOp::BitAnd),
        Mark::Eq => Joint::Binary(BinaryOp::Eq),
        Mark::Ne => Joint::Binary(BinaryOp::Ne),
        Mark::StrictEq => Joint::Binary(BinaryOp::StrictEq),
        Mark::StrictNe => Joint::Binary(BinaryOp::StrictNe),
        Mark::Lt => Joint::Binary(BinaryOp::Lt),
        Mark::Gt => Joint::Binary(BinaryOp::Gt),
        Mark::Le => Joint::Binary(BinaryOp::Le),
        Mark::Ge => Joint::Binary(BinaryOp::Ge),
        Mark::Shl => Joint::Binary(BinaryOp::Shl),
        Mark::Shr => Joint::Binary(BinaryOp::Shr),
        Mark::UShr => Joint::Binary(BinaryOp::UShr),
        Mark::Plus => Joint::Binary(BinaryOp::Add),
        Mark::Minus => Joint::Binary(BinaryOp::Sub),
        Mark::Star => Joint::Binary(BinaryOp::Mul),
        Mark::Slash => Joint::Binary(BinaryOp::Div),
        Mark::Percent => Joint::Binary(BinaryOp::Rem),
        _ => Joint::None,
    }
}

fn in_joint(with_in: bool) -> Joint
    ensures { result ≡ spec.joint_of with_in (Lexeme.reserved Keyword.In) }
{
    if with_in {
        Joint::Binary(BinaryOp::In)
    } else {
        Joint::None
    }
}

/// How the terminal carries an expression on.
pub fn joint_of(with_in: bool, terminal: Terminal) -> Joint
    ensures { result ≡ spec.joint_of with_in (like terminal) }
{
    match terminal {
        Terminal::Mark(mark) => mark_joint(mark),
        Terminal::Reserved(Keyword::In) => in_joint(with_in),
        Terminal::Reserved(Keyword::InstanceOf) => Joint::Binary(BinaryOp::InstanceOf),
        _ => Joint::None,
    }
}

pub fn logical_level(op: LogicalOp) -> usize
    ensures value { result ≡ spec.logical_level op }
    ensures small { result ≤ 13 }
{
    match op {
        LogicalOp::Or => 4,
        LogicalOp::And => 5,
    }
}

pub fn binary_level(op: BinaryOp) -> usize
    ensures value { result ≡ spec.binary_level op }
    ensures small { result ≤ 13 }
{
    match op {
        BinaryOp::BitOr => 6,
        BinaryOp::BitXor => 7,
        BinaryOp::BitAnd => 8,
        BinaryOp::Eq | BinaryOp::Ne | BinaryOp::StrictEq | BinaryOp::StrictNe => 9,
        BinaryOp::Lt | BinaryOp::Gt | BinaryOp::Le | BinaryOp::Ge => 10,
        BinaryOp::InstanceOf | BinaryOp::In => 10,
        BinaryOp::Shl | BinaryOp::Shr | BinaryOp::UShr => 11,
        BinaryOp::Add | BinaryOp::Sub => 12,
        BinaryOp::Mul | BinaryOp::Div | BinaryOp::Rem => 13,
    }
}

/// How tightly it binds.
pub fn binds(joint: Joint) -> usize
    ensures { result ≡ spec.binds joint }
{
    match joint {
        Joint::Comma => 1,
        Joint::Assign(_) => 2,
        Joint::Question => 3,
        Joint::Logical(op) => logical_level(op),
        Joint::Binary(op) => binary_level(op),
        Joint::None => 0,
    }
}

/// The operator before one value (ECMA-262 5.1 §11.4).
pub fn prefix_of(terminal: Terminal) -> Option<UnaryOp>
    ensures { result ≡ spec.prefix_of (like terminal) }
{
    match terminal {
        Terminal::Reserved(Keyword::Delete) => Some(UnaryOp::Delete),
        Terminal::Reserved(Keyword::Void) => Some(UnaryOp::Void),
        Terminal::Reserved(Keyword::TypeOf) => Some(UnaryOp::TypeOf),
        Terminal::Mark(Mark::Plus) => Some(UnaryOp::Plus),
        Terminal::Mark(Mark::Minus) => Some(UnaryOp::Minus),
        Terminal::Mark(Mark::BitNot) => Some(UnaryOp::BitNot),
        Terminal::Mark(Mark::Not) => Some(UnaryOp::Not),
        _ => None,
    }
}

/// `++` and `--` (ECMA-262 5.1 §11.3).
pub fn update_of(terminal: Terminal) -> Option<UpdateOp>
    ensures { result ≡ spec.update_of (like terminal) }
{
    match terminal {
        Terminal::Mark(Mark::PlusPlus) => Some(UpdateOp::Add),
        Terminal::Mark(Mark::MinusMinus) => Some(UpdateOp::Sub),
        _ => None,
    }
}

/// Whether a semicolon may be missing before the terminal, where it doesn't carry the statement on (ECMA-262 5.1 §7.9.1).
pub fn may_miss(terminal: Terminal, broken: bool) -> bool
    ensures { result ≡ spec.may_miss (like terminal) broken false }
{
    match terminal {
        Terminal::Mark(Mark::Semicolon) => false,
        Terminal::Mark(Mark::RightBrace) | Terminal::End => true,
        _ => broken,
    }
}

/// What carries a chain on: a call where the chain may have calls, a member, or an index.
pub fn links(with_calls: bool, terminal: Terminal) -> bool
    ensures { result ≡ rule.links with_calls terminal }
{
    match terminal {
        Terminal::Mark(Mark::LeftParen) => with_calls,
        Terminal::Mark(Mark::Dot | Mark::LeftBracket) => true,
        _ => false,
    }
}

/// What ends a list of statements.
pub fn closes(terminal: Terminal) -> bool
    ensures { result ≡ rule.closes terminal }
{
    matches!(
        terminal,
        Terminal::Mark(Mark::RightBrace) | Terminal::Reserved(Keyword::Case | Keyword::Default)
    )
}

#[tactic(auto, unfolding(crate::specs::Readers::sees))]
pub fn sees(mark: Mark, terminal: Terminal) -> bool
    ensures { result ≡ sees mark terminal }
{
    match terminal {
        Terminal::Mark(found) => found == mark,
        _ => false,
    }
}

#[tactic(auto, unfolding(crate::specs::Readers::sees_word))]
pub fn sees_word(word: Keyword, terminal: Terminal) -> bool
    ensures { result ≡ sees_word word terminal }
{
    match terminal {
        Terminal::Reserved(found) => found == word,
        _ => false,
    }
}

/// A name, a member or an index.
pub fn is_target(tree: &Expr) -> bool
    ensures { result ≡ grammar.is_target tree.now }
{
    matches!(
        tree.node,
        ExprNode::Name(_) | ExprNode::Member(_, _) | ExprNode::Index(_, _)
    )
}

/// A loop, or a label of one.
pub fn is_loop(tree: &Stmt) -> bool
    ensures { result ≡ grammar.is_loop tree.now }
{
    matches!(
        tree.node,
        StmtNode::Do { .. }
            | StmtNode::While { .. }
            | StmtNode::For { .. }
            | StmtNode::ForIn { .. }
            | StmtNode::Label(_, _)
    )
}
