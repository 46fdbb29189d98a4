//! How many operations stand for a part of a tree, added to a total up to `TOO_MANY`. The recursion is as deep as the tree.
#![tactic(auto, using(crate::proofs::Trees::trees), unfolding(njs_simul::specs::Compiled::expression, njs_simul::specs::Compiled::statement, njs_gen_expr::specs::Trees::branch, njs_gen_expr::specs::Trees::first, njs_gen_expr::specs::Trees::head))]

ghost use Rattle.std.specs.Prelude.{◌≡◌, ◌≤◌, ℕ, ◌+◌};
ghost use Rattle.njs_simul.specs.Emission.{fetch_size, method_size};
ghost use Rattle.njs_gen_expr.specs.References.{operator_count};
ghost use Rattle.njs_gen_stmt.specs.Sized.{counted, form, in_target, in_value, in_values, in_elements, in_fields, in_variables, in_statement, in_statements, in_branches, in_first, in_head, in_aside, in_branch};

use njs_text::Text;
use njs_tree::{Case, Expr, ExprNode, ForFirst, ForInHead, Stmt, StmtNode, UnaryOp};
use sqlite_items::Items;

/// One more than the operations that a function may have, and what stands for each larger number.
pub const TOO_MANY: u32 = 16_777_217;

fn plus(total: u32, more: u32) -> u32
    ensures { result ≡ counted (total + more) }
{
    let sum = u64::from(total) + u64::from(more);
    if sum < u64::from(TOO_MANY) {
        sum as u32
    } else {
        TOO_MANY
    }
}

// What asks for the value of an expression.
fn fetch(e: &Expr) -> u32
    ensures size { (first : ℕ) → result ≡ fetch_size (form e.now first) }
    ensures small { result ≤ 1 }
{
    match &e.node {
        ExprNode::Name(_) | ExprNode::Member(_, _) | ExprNode::Index(_, _) => 1,
        _ => 0,
    }
}

// What asks for what is called and its `this`.
fn method(e: &Expr) -> u32
    ensures { (first : ℕ) → result ≡ method_size (form e.now first) }
{
    match &e.node {
        ExprNode::Name(_) => 2,
        _ => 1,
    }
}

// The operator behind its operand.
fn operator(op: UnaryOp, e: &Expr) -> u32
    ensures { (first : ℕ) → result ≡ operator_count op (form e.now first) }
{
    match op {
        UnaryOp::Delete => match &e.node {
            ExprNode::Name(_) | ExprNode::Member(_, _) | ExprNode::Index(_, _) => 1,
            _ => 2,
        },
        UnaryOp::TypeOf => match &e.node {
            ExprNode::Name(_) | ExprNode::Member(_, _) | ExprNode::Index(_, _) => 2,
            _ => 1,
        },
        _ => 1 + fetch(e),
    }
}

/// The operations for the value of an expression.
#[cycle(expression)]
pub fn value(e: &Expr, total: u32) -> u32
    ensures { (first : ℕ) → result ≡ counted (total + in_value e.now first) }
{
    target(e, plus(total, fetch(e)))
}

/// The operations for an expression that is a target: all but the one that asks for its value.
#[cycle(expression)]
pub fn target(e: &Expr, total: u32) -> u32
    ensures { (first : ℕ) → result ≡ counted (total + in_target e.now first) }
{
    match &e.node {
        ExprNode::Comma(a, b)
        | ExprNode::Logical(_, a, b)
        | ExprNode::Binary(_, a, b)
        | ExprNode::Index(a, b) => value(b.get(), value(a.get(), plus(total, 2))),
        ExprNode::Assign(None, a, b) => value(b.get(), target(a.get(), plus(total, 2))),
        ExprNode::Assign(Some(_), a, b) => value(b.get(), target(a.get(), plus(total, 4))),
        ExprNode::Cond(a, b, c) => {
            value(c.get(), value(b.get(), value(a.get(), plus(total, 3))))
        }
        ExprNode::Unary(op, a) => target(a.get(), plus(plus(total, 1), operator(*op, a.get()))),
        ExprNode::Update {
            prefix,
            target: a,
            ..
        } => { target(a.get(), plus(total, if *prefix { 5 } else { 7 })) }
        ExprNode::Call(callee, arguments) => {
            let total = plus(plus(total, 2), method(callee.get()));
            values(arguments, target(callee.get(), total))
        }
        ExprNode::New(callee, arguments) => {
            values(arguments, value(callee.get(), plus(total, 2)))
        }
        ExprNode::Member(object, _) => value(object.get(), plus(total, 3)),
        ExprNode::Array(list) => elements(list, plus(total, 7)),
        ExprNode::Object(list) => fields(list, plus(total, 2)),
        ExprNode::Name(_) => plus(total, 1),
        ExprNode::Function(_)
        | ExprNode::Num(_)
        | ExprNode::Str(_)
        | ExprNode::This
        | ExprNode::Null
        | ExprNode::Bool(_) => plus(total, 2),
    }
}

#[cycle(expression)]
fn values(list: &Items<Expr>, total: u32) -> u32
    ensures { (first : ℕ) → result ≡ counted (total + in_values list.now first) }
{
    let list = list.as_slice();
    let mut size = 0;
    for i in (0..list.len()).rev() {
        size = value(&list[i], size);
    }
    plus(total, size)
}

#[cycle(expression)]
fn elements(list: &Items<Option<Expr>>, total: u32) -> u32
    ensures { (first : ℕ) → result ≡ counted (total + in_elements list.now first) }
{
    let list = list.as_slice();
    let mut size = 0;
    for i in (0..list.len()).rev() {
        if let Some(e) = &list[i] {
            size = value(e, plus(size, 1));
        }
    }
    plus(total, size)
}

#[cycle(expression)]
fn fields(list: &Items<(Text, Expr)>, total: u32) -> u32
    ensures { (first : ℕ) → result ≡ counted (total + in_fields list.now first) }
{
    let list = list.as_slice();
    let mut size = 0;
    for i in (0..list.len()).rev() {
        size = value(&list[i].1, plus(size, 1));
    }
    plus(total, size)
}

// The value of an expression that may be missing, and one operation more.
pub fn aside(part: &Option<Expr>, total: u32) -> u32
    ensures { (first : ℕ) → result ≡ counted (total + in_aside part.now first) }
{
    match part {
        None => plus(total, 0),
        Some(e) => value(e, plus(total, 1)),
    }
}

fn variables(list: &Items<(Text, Option<Expr>)>, total: u32) -> u32
    ensures { (first : ℕ) → result ≡ counted (total + in_variables list.now first) }
{
    let list = list.as_slice();
    let mut size = 0;
    for i in (0..list.len()).rev() {
        if let Some(e) = &list[i].1 {
            size = value(e, plus(size, 2));
        }
    }
    plus(total, size)
}

fn first(part: &Option<ForFirst>, total: u32) -> u32
    ensures { (first : ℕ) → result ≡ counted (total + in_first part.now first) }
{
    match part {
        None => plus(total, 0),
        Some(ForFirst::Var(list)) => variables(list, total),
        Some(ForFirst::Expr(a)) => value(a, plus(total, 1)),
    }
}

/// The operations for what a turn of a `for in` assigns to.
pub fn head(part: &ForInHead, total: u32) -> u32
    ensures { (first : ℕ) → result ≡ counted (total + in_head part.now first) }
{
    match part {
        ForInHead::Var(_) => plus(total, 0),
        ForInHead::Target(e) => target(e, total),
    }
}

/// The operations for a statement.
#[cycle(statement)]
pub fn statement(s: &Stmt, total: u32) -> u32
    ensures { (first : ℕ) → result ≡ counted (total + in_statement s.now first) }
{
    match &s.node {
        StmtNode::Block(list) => statements(list, plus(total, 1)),
        StmtNode::Var(list) => variables(list, plus(total, 1)),
        StmtNode::Expr(a) | StmtNode::Throw(a) => value(a, plus(total, 2)),
        StmtNode::If {
            test,
            then,
            other: None,
        } => statement(then.get(), value(test, plus(total, 3))),
        StmtNode::If {
            test,
            then,
            other: Some(other),
        } => statement(
            other.get(),
            statement(then.get(), value(test, plus(total, 3))),
        ),
        StmtNode::Do { body, test } | StmtNode::While { test, body } => {
            statement(body.get(), value(test, plus(total, 5)))
        }
        StmtNode::For {
            first: part,
            test,
            update,
            body,
        } => {
            let head = aside(update, aside(test, first(part, plus(total, 4))));
            statement(body.get(), head)
        }
        StmtNode::ForIn {
            head: part,
            value: object,
            body,
        } => statement(body.get(), head(part, value(object, plus(total, 11)))),
        StmtNode::Return(None) => plus(total, 3),
        StmtNode::Return(Some(a)) => value(a, plus(total, 2)),
        StmtNode::Switch { value: v, cases } => branches(cases, value(v, plus(total, 4))),
        StmtNode::Try {
            body,
            caught: None,
            finally: None,
        } => statements(body, plus(total, 1)),
        StmtNode::Try {
            body,
            caught: Some((_, handler)),
            finally: None,
        } => statements(handler, statements(body, plus(total, 5))),
        StmtNode::Try {
            body,
            caught: None,
            finally: Some(last),
        } => statements(last, statements(body, plus(total, 3))),
        StmtNode::Try {
            body,
            caught: Some((_, handler)),
            finally: Some(last),
        } => statements(last, statements(handler, statements(body, plus(total, 7)))),
        StmtNode::Label(_, body) => statement(body.get(), plus(total, 1)),
        StmtNode::Continue(_) | StmtNode::Break(_) => plus(total, 2),
        StmtNode::Empty | StmtNode::FunctionDecl(_) => plus(total, 1),
    }
}

/// The operations for statements, one after the other.
#[cycle(statement)]
pub fn statements(list: &Items<Stmt>, total: u32) -> u32
    ensures { (first : ℕ) → result ≡ counted (total + in_statements list.now first) }
{
    in_turn(list.as_slice(), total)
}

#[cycle(statement)]
fn in_turn(list: &[Stmt], total: u32) -> u32
    ensures { (first : ℕ) → result ≡ counted (total + in_statements list.now first) }
{
    let mut size = 0;
    for i in (0..list.len()).rev() {
        size = statement(&list[i], size);
    }
    plus(total, size)
}

#[cycle(statement)]
fn branch(part: &Case, total: u32) -> u32
    ensures { (first : ℕ) → result ≡ counted (total + in_branch part.now first) }
{
    statements(&part.body, aside(&part.test, total))
}

// The tests and the bodies of a `switch`.
#[cycle(statement)]
fn branches(list: &Items<Case>, total: u32) -> u32
    ensures { (first : ℕ) → result ≡ counted (total + in_branches list.now first) }
{
    let list = list.as_slice();
    let mut size = 0;
    for i in (0..list.len()).rev() {
        size = branch(&list[i], size);
    }
    plus(total, size)
}
