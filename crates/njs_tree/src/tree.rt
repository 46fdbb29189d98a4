// The trees of scripts. Each node holds the line of its first token, counted from 1.
use njs_text::{List, Text};
use sqlite_items::{Boxed, Items};

/// A script (ECMA-262 5.1 §14), and what it exports.
#[derive(Drop)]
pub struct Script {
    pub items: List<Item>,
}

/// One item of a script: a statement or declaration (ECMA-262 5.1 §14), or `export default value;` (of ECMAScript modules),
/// with the line of `export`.
#[derive(Drop)]
pub enum Item {
    Stmt(Stmt),
    Export(u32, Expr),
}

/// A function (ECMA-262 5.1 §13), declared or as an expression. A declaration has a name.
#[cycle(tree)]
#[derive(Drop)]
pub struct FunctionTree {
    pub name: Option<Text>,
    pub params: List<Text>,
    pub body: Items<Stmt>,
}

/// An expression (ECMA-262 5.1 §11). Parentheses make no node.
#[cycle(tree)]
#[derive(Drop)]
pub struct Expr {
    pub line: u32,
    pub node: ExprNode,
}

/// The kinds of expressions.
#[cycle(tree)]
#[derive(Drop)]
pub enum ExprNode {
    /// `a, b` (ECMA-262 5.1 §11.14).
    Comma(Boxed<Expr>, Boxed<Expr>),
    /// `target = value`, or with an operator `target += value` and so on (ECMA-262 5.1 §11.13).
    Assign(Option<BinaryOp>, Boxed<Expr>, Boxed<Expr>),
    /// `a ? b : c` (ECMA-262 5.1 §11.12).
    Cond(Boxed<Expr>, Boxed<Expr>, Boxed<Expr>),
    /// `a || b`, `a && b` (ECMA-262 5.1 §11.11).
    Logical(LogicalOp, Boxed<Expr>, Boxed<Expr>),
    /// An operator of two values (ECMA-262 5.1 §11.5 to §11.10).
    Binary(BinaryOp, Boxed<Expr>, Boxed<Expr>),
    /// An operator of one value (ECMA-262 5.1 §11.4).
    Unary(UnaryOp, Boxed<Expr>),
    /// `++` or `--`, before the target or after it (ECMA-262 5.1 §11.3, §11.4.4, §11.4.5).
    Update {
        op: UpdateOp,
        prefix: bool,
        target: Boxed<Expr>,
    },
    /// `callee(arguments)` (ECMA-262 5.1 §11.2.3).
    Call(Boxed<Expr>, Items<Expr>),
    /// `a.name` (ECMA-262 5.1 §11.2.1).
    Member(Boxed<Expr>, Text),
    /// `a[b]` (ECMA-262 5.1 §11.2.1).
    Index(Boxed<Expr>, Boxed<Expr>),
    /// `new callee(arguments)`, or without arguments `new callee` (ECMA-262 5.1 §11.2.2).
    New(Boxed<Expr>, Items<Expr>),
    /// A number (ECMA-262 5.1 §7.8.3). All numbers are integers.
    Num(i64),
    /// A string, by its value (ECMA-262 5.1 §7.8.4).
    Str(Text),
    /// A name (ECMA-262 5.1 §11.1.2).
    Name(Text),
    /// `this` (ECMA-262 5.1 §11.1.1).
    This,
    /// `null` (ECMA-262 5.1 §7.8.1).
    Null,
    /// `true` or `false` (ECMA-262 5.1 §7.8.2).
    Bool(bool),
    /// `[a, , b]`; a hole is `None` (ECMA-262 5.1 §11.1.4).
    Array(Items<Option<Expr>>),
    /// `{key: value}`; a shorthand `{name}` has the value `Name` (ECMA-262 5.1 §11.1.5).
    Object(Items<(Text, Expr)>),
    /// A function as an expression (ECMA-262 5.1 §13).
    Function(FunctionTree),
}

/// The operators that may leave out their second value (ECMA-262 5.1 §11.11).
#[derive(Clone, Copy, Debug, PartialEq, Eq)]
pub enum LogicalOp {
    Or,
    And,
}

/// The operators of two values (ECMA-262 5.1 §11.5 to §11.10).
#[derive(Clone, Copy, Debug, PartialEq, Eq)]
pub enum BinaryOp {
    BitOr,
    BitXor,
    BitAnd,
    Eq,
    Ne,
    StrictEq,
    StrictNe,
    Lt,
    Gt,
    Le,
    Ge,
    InstanceOf,
    In,
    Shl,
    Shr,
    UShr,
    Add,
    Sub,
    Mul,
    Div,
    Rem,
}

/// The operators of one value (ECMA-262 5.1 §11.4).
#[derive(Clone, Copy, Debug, PartialEq, Eq)]
pub enum UnaryOp {
    Delete,
    Void,
    TypeOf,
    Plus,
    Minus,
    BitNot,
    Not,
}

/// `++` and `--` (ECMA-262 5.1 §11.3).
#[derive(Clone, Copy, Debug, PartialEq, Eq)]
pub enum UpdateOp {
    Add,
    Sub,
}

/// A statement (ECMA-262 5.1 §12), or the declaration of a function.
#[cycle(tree)]
#[derive(Drop)]
pub struct Stmt {
    pub line: u32,
    pub node: StmtNode,
}

/// The kinds of statements.
#[cycle(tree)]
#[derive(Drop)]
pub enum StmtNode {
    /// ECMA-262 5.1 §12.1.
    Block(Items<Stmt>),
    /// `var name, name = value;` (ECMA-262 5.1 §12.2).
    Var(Items<(Text, Option<Expr>)>),
    /// `;` (ECMA-262 5.1 §12.3).
    Empty,
    /// ECMA-262 5.1 §12.4.
    Expr(Expr),
    /// ECMA-262 5.1 §12.5.
    If {
        test: Expr,
        then: Boxed<Stmt>,
        other: Option<Boxed<Stmt>>,
    },
    /// ECMA-262 5.1 §12.6.1.
    Do {
        body: Boxed<Stmt>,
        test: Expr,
    },
    /// ECMA-262 5.1 §12.6.2.
    While {
        test: Expr,
        body: Boxed<Stmt>,
    },
    /// ECMA-262 5.1 §12.6.3.
    For {
        first: Option<ForFirst>,
        test: Option<Expr>,
        update: Option<Expr>,
        body: Boxed<Stmt>,
    },
    /// ECMA-262 5.1 §12.6.4.
    ForIn {
        head: ForInHead,
        value: Expr,
        body: Boxed<Stmt>,
    },
    /// ECMA-262 5.1 §12.7.
    Continue(Option<Text>),
    /// ECMA-262 5.1 §12.8.
    Break(Option<Text>),
    /// ECMA-262 5.1 §12.9.
    Return(Option<Expr>),
    /// ECMA-262 5.1 §12.13.
    Throw(Expr),
    /// ECMA-262 5.1 §12.11.
    Switch {
        value: Expr,
        cases: Items<Case>,
    },
    /// The block, the name and the block of the `catch`, and the block of the `finally` (ECMA-262 5.1 §12.14).
    Try {
        body: Items<Stmt>,
        caught: Option<(Text, Items<Stmt>)>,
        finally: Option<Items<Stmt>>,
    },
    /// ECMA-262 5.1 §12.12.
    Label(Text, Boxed<Stmt>),
    /// ECMA-262 5.1 §13.
    FunctionDecl(FunctionTree),
}

/// What stands first in the head of a `for` (ECMA-262 5.1 §12.6.3).
#[cycle(tree)]
#[derive(Drop)]
pub enum ForFirst {
    Var(Items<(Text, Option<Expr>)>),
    Expr(Expr),
}

/// What stands before the `in` of a `for` (ECMA-262 5.1 §12.6.4).
#[cycle(tree)]
#[derive(Drop)]
pub enum ForInHead {
    Var(Text),
    Target(Expr),
}

/// One case of a `switch`; without a test it is `default` (ECMA-262 5.1 §12.11).
#[cycle(tree)]
#[derive(Drop)]
pub struct Case {
    pub test: Option<Expr>,
    pub body: Items<Stmt>,
}
