// The tokens of scripts, and the small enums by which grammar, reader and code speak of them.
use crate::{BinaryOp, LogicalOp};

/// A token (ECMA-262 5.1 §7), as a slice of its text.
#[derive(Clone, Copy, Debug, PartialEq, Eq)]
pub struct Token {
    pub kind: Kind,
    /// The byte at which the token begins.
    pub from: usize,
    /// The byte behind the token.
    pub to: usize,
    /// The line of the token's first byte, counted from 1.
    pub line: u32,
    /// Whether a line end stands between the token before and this one.
    pub after_break: bool,
}

/// The kind of a token.
#[derive(Clone, Copy, Debug, PartialEq, Eq)]
pub enum Kind {
    /// A name or a reserved word (ECMA-262 5.1 §7.6).
    Word,
    /// A number (ECMA-262 5.1 §7.8.3).
    Number,
    /// A string (ECMA-262 5.1 §7.8.4).
    Str,
    /// A mark (ECMA-262 5.1 §7.7).
    Mark(Mark),
    /// The end of the text.
    End,
}

/// The marks (ECMA-262 5.1 §7.7).
#[derive(Clone, Copy, Debug, PartialEq, Eq)]
pub enum Mark {
    /// `{`
    LeftBrace,
    /// `}`
    RightBrace,
    /// `(`
    LeftParen,
    /// `)`
    RightParen,
    /// `[`
    LeftBracket,
    /// `]`
    RightBracket,
    /// `.`
    Dot,
    /// `;`
    Semicolon,
    /// `,`
    Comma,
    /// `<`
    Lt,
    /// `>`
    Gt,
    /// `<=`
    Le,
    /// `>=`
    Ge,
    /// `==`
    Eq,
    /// `!=`
    Ne,
    /// `===`
    StrictEq,
    /// `!==`
    StrictNe,
    /// `+`
    Plus,
    /// `-`
    Minus,
    /// `*`
    Star,
    /// `/`
    Slash,
    /// `%`
    Percent,
    /// `++`
    PlusPlus,
    /// `--`
    MinusMinus,
    /// `<<`
    Shl,
    /// `>>`
    Shr,
    /// `>>>`
    UShr,
    /// `&`
    BitAnd,
    /// `|`
    BitOr,
    /// `^`
    BitXor,
    /// `!`
    Not,
    /// `~`
    BitNot,
    /// `&&`
    And,
    /// `||`
    Or,
    /// `?`
    Question,
    /// `:`
    Colon,
    /// `=`
    Assign,
    /// `+=`
    AddAssign,
    /// `-=`
    SubAssign,
    /// `*=`
    MulAssign,
    /// `/=`
    DivAssign,
    /// `%=`
    RemAssign,
    /// `<<=`
    ShlAssign,
    /// `>>=`
    ShrAssign,
    /// `>>>=`
    UShrAssign,
    /// `&=`
    AndAssign,
    /// `|=`
    OrAssign,
    /// `^=`
    XorAssign,
}

/// Why no token stands at a place.
#[derive(Clone, Copy, Debug, PartialEq, Eq)]
pub enum LexFault {
    /// A character that begins no token.
    BadByte,
    /// A backslash in a string that begins no escape (ECMA-262 5.1 §7.8.4).
    BadEscape,
    /// A number over 2^53 - 1, without digits, or with a letter, a digit, `$`, `_` or a point behind it, and a point with a digit
    /// behind it.
    BadNumber,
    /// A string that a line end or the end of the text cuts off.
    OpenText,
    /// A `/*` without `*/`.
    OpenComment,
}

/// The reserved words (ECMA-262 5.1 §7.6.1, §7.8.1 and §7.8.2, those of strict mode among them).
#[derive(Clone, Copy, Debug, PartialEq, Eq)]
pub enum Keyword {
    Break,
    Case,
    Catch,
    Class,
    Const,
    Continue,
    Debugger,
    Default,
    Delete,
    Do,
    Else,
    Enum,
    Export,
    Extends,
    Finally,
    For,
    Function,
    If,
    Implements,
    Import,
    In,
    InstanceOf,
    Interface,
    Let,
    New,
    Package,
    Private,
    Protected,
    Public,
    Return,
    Static,
    Super,
    Switch,
    This,
    Throw,
    Try,
    TypeOf,
    Var,
    Void,
    While,
    With,
    Yield,
    Null,
    True,
    False,
}

/// How a token carries an expression on.
#[derive(Clone, Copy, Debug, PartialEq, Eq)]
pub enum Joint {
    Comma,
    Assign(Option<BinaryOp>),
    Question,
    Logical(LogicalOp),
    Binary(BinaryOp),
    None,
}

/// An early refusal, and the line of the node on which it stands.
#[derive(Clone, Copy, Debug, PartialEq, Eq)]
pub struct EarlyFault {
    pub kind: EarlyKind,
    pub line: u32,
}

/// The kinds of early refusals.
#[derive(Clone, Copy, Debug, PartialEq, Eq)]
pub enum EarlyKind {
    /// Two parameters of one function have one name (ECMA-262 5.1 §13.1).
    Parameter,
    /// `eval` or `arguments` is a parameter, a variable, a function's name, a catch name or a target (ECMA-262 5.1 §11.13.1, §12.2.1, §12.14.1, §13.1).
    Reserved,
    /// `delete` of a name (ECMA-262 5.1 §11.4.1).
    Delete,
    /// `break` without a loop or switch, or to no label, around it (ECMA-262 5.1 §12.8).
    Break,
    /// `continue` without a loop, or to no label, around it (ECMA-262 5.1 §12.7).
    Continue,
    /// A label inside a statement with the same label (ECMA-262 5.1 §12.12).
    Label,
    /// `return` outside of functions (ECMA-262 5.1 §12.9).
    Return,
    /// More than 255 parameters or arguments.
    Count,
}
