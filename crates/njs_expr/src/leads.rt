// How statements begin.
ghost use Rattle.std.specs.Prelude.{◌≡◌};
ghost use Rattle.njs_expr.specs.Leads as spec;

use crate::Terminal;
use njs_tree::{Keyword, Mark};

/// What a statement is, by its first symbol.
#[derive(Clone, Copy, Debug, PartialEq, Eq)]
pub enum Lead {
    Empty,
    Block,
    Function,
    /// A label, or an expression.
    Name,
    Var,
    If,
    Switch,
    Try,
    Loop(Loop),
    Jump(Jump),
    Expression,
}

/// The loops.
#[derive(Clone, Copy, Debug, PartialEq, Eq)]
pub enum Loop {
    Do,
    While,
    For,
}

/// The statements that end others.
#[derive(Clone, Copy, Debug, PartialEq, Eq)]
pub enum Jump {
    Continue,
    Break,
    Return,
    Throw,
}

pub fn lead_of(terminal: Terminal) -> Lead
    ensures { result ≡ spec.lead_of terminal }
{
    match terminal {
        Terminal::Name => Lead::Name,
        Terminal::Mark(Mark::Semicolon) => Lead::Empty,
        Terminal::Mark(Mark::LeftBrace) => Lead::Block,
        Terminal::Reserved(Keyword::Function) => Lead::Function,
        Terminal::Reserved(Keyword::Var) => Lead::Var,
        Terminal::Reserved(Keyword::If) => Lead::If,
        Terminal::Reserved(Keyword::Switch) => Lead::Switch,
        Terminal::Reserved(Keyword::Try) => Lead::Try,
        Terminal::Reserved(Keyword::Do) => Lead::Loop(Loop::Do),
        Terminal::Reserved(Keyword::While) => Lead::Loop(Loop::While),
        Terminal::Reserved(Keyword::For) => Lead::Loop(Loop::For),
        Terminal::Reserved(Keyword::Continue) => Lead::Jump(Jump::Continue),
        Terminal::Reserved(Keyword::Break) => Lead::Jump(Jump::Break),
        Terminal::Reserved(Keyword::Return) => Lead::Jump(Jump::Return),
        Terminal::Reserved(Keyword::Throw) => Lead::Jump(Jump::Throw),
        _ => Lead::Expression,
    }
}
