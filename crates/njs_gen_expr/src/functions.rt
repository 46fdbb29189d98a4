//! How many functions stand in a tree, up to the largest number. The recursion is as deep as the tree.
#![tactic(auto, using(crate::proofs::Trees::trees), unfolding(njs_simul::specs::Compiled::expression, njs_simul::specs::Compiled::statement, crate::specs::Trees::function, crate::specs::Trees::branch, crate::specs::Trees::first, crate::specs::Trees::head))]

ghost use Rattle.std.specs.Prelude.{ℕ, ◌≡◌, ◌+◌};
ghost use Rattle.njs_gen_expr.specs.Trees as code;
ghost use Rattle.njs_gen_expr.specs.Written.{most_functions};
ghost use Rattle.njs_gen_expr.specs.Trees.{in_list, in_statements, in_elements, in_fields, in_variables, in_held, in_branches, in_first};

use njs_text::Text;
use njs_tree::{Case, Expr, ExprNode, ForFirst, ForInHead, FunctionTree, Stmt, StmtNode};
use sqlite_items::Items;

// The functions in an expression, added to a total.
#[cycle(functions)]
pub fn in_expression(e: &Expr, total: u32) -> u32
    ensures { result ≡ most_functions (total + (code.expression e.now).size) }
{
    match &e.node {
        ExprNode::Comma(a, b)
        | ExprNode::Assign(_, a, b)
        | ExprNode::Logical(_, a, b)
        | ExprNode::Binary(_, a, b)
        | ExprNode::Index(a, b) => in_expression(b.get(), in_expression(a.get(), total)),
        ExprNode::Cond(a, b, c) => in_expression(
            c.get(),
            in_expression(b.get(), in_expression(a.get(), total)),
        ),
        ExprNode::Unary(_, a) | ExprNode::Member(a, _) | ExprNode::Update { target: a, .. } => {
            in_expression(a.get(), total)
        }
        ExprNode::Call(callee, arguments) | ExprNode::New(callee, arguments) => {
            in_list(arguments, in_expression(callee.get(), total))
        }
        ExprNode::Array(list) => in_elements(list, total),
        ExprNode::Object(list) => in_fields(list, total),
        ExprNode::Function(f) => functions_in(f, total),
        ExprNode::Name(_)
        | ExprNode::Num(_)
        | ExprNode::Str(_)
        | ExprNode::This
        | ExprNode::Null
        | ExprNode::Bool(_) => total,
    }
}

#[cycle(functions)]
fn in_list(list: &Items<Expr>, total: u32) -> u32
    ensures { result ≡ most_functions (total + in_list list.now) }
{
    let list = list.as_slice();
    let mut sum: u32 = 0;
    for i in (0..list.len()).rev() {
        sum = in_expression(&list[i], sum);
    }
    sum.saturating_add(total)
}

#[cycle(functions)]
fn in_elements(list: &Items<Option<Expr>>, total: u32) -> u32
    ensures { result ≡ most_functions (total + in_elements list.now) }
{
    let list = list.as_slice();
    let mut sum: u32 = 0;
    for i in (0..list.len()).rev() {
        if let Some(e) = &list[i] {
            sum = in_expression(e, sum);
        }
    }
    sum.saturating_add(total)
}

#[cycle(functions)]
fn in_fields(list: &Items<(Text, Expr)>, total: u32) -> u32
    ensures { result ≡ most_functions (total + in_fields list.now) }
{
    let list = list.as_slice();
    let mut sum: u32 = 0;
    for i in (0..list.len()).rev() {
        sum = in_expression(&list[i].1, sum);
    }
    sum.saturating_add(total)
}

// A part that may be missing.
#[cycle(functions)]
fn in_held(part: &Option<Expr>, total: u32) -> u32
    ensures { result ≡ most_functions (total + in_held part.now) }
{
    match part {
        None => total,
        Some(e) => in_expression(e, total),
    }
}

#[cycle(functions)]
fn in_variables(list: &Items<(Text, Option<Expr>)>, total: u32) -> u32
    ensures { result ≡ most_functions (total + in_variables list.now) }
{
    let list = list.as_slice();
    let mut sum: u32 = 0;
    for i in (0..list.len()).rev() {
        if let Some(e) = &list[i].1 {
            sum = in_expression(e, sum);
        }
    }
    sum.saturating_add(total)
}

#[cycle(functions)]
fn in_first(part: &Option<ForFirst>, total: u32) -> u32
    ensures { result ≡ most_functions (total + in_first part.now) }
{
    match part {
        None => total,
        Some(ForFirst::Var(list)) => in_variables(list, total),
        Some(ForFirst::Expr(e)) => in_expression(e, total),
    }
}

#[cycle(functions)]
fn in_head(part: &ForInHead, total: u32) -> u32
    ensures { result ≡ most_functions (total + (code.head part.now).size) }
{
    match part {
        ForInHead::Var(_) => total,
        ForInHead::Target(e) => in_expression(e, total),
    }
}

/// The functions in a function, added to a total.
#[cycle(functions)]
pub fn functions_in(f: &FunctionTree, total: u32) -> u32
    ensures { result ≡ most_functions (total + (code.function f.now).size) }
{
    in_statements(&f.body, total.saturating_add(1))
}

#[cycle(functions)]
pub fn in_statements(list: &Items<Stmt>, total: u32) -> u32
    ensures { result ≡ most_functions (total + in_statements list.now) }
{
    let list = list.as_slice();
    let mut sum: u32 = 0;
    for i in (0..list.len()).rev() {
        sum = in_statement(&list[i], sum);
    }
    sum.saturating_add(total)
}

#[cycle(functions)]
fn in_branch(part: &Case, total: u32) -> u32
    ensures { result ≡ most_functions (total + (code.branch part.now).size) }
{
    in_statements(&part.body, in_held(&part.test, total))
}

#[cycle(functions)]
fn in_branches(list: &Items<Case>, total: u32) -> u32
    ensures { result ≡ most_functions (total + in_branches list.now) }
{
    let list = list.as_slice();
    let mut sum: u32 = 0;
    for i in (0..list.len()).rev() {
        sum = in_branch(&list[i], sum);
    }
    sum.saturating_add(total)
}

#[cycle(functions)]
pub fn in_statement(s: &Stmt, total: u32) -> u32
    ensures { result ≡ most_functions (total + (code.statement s.now).size) }
{
    match &s.node {
        StmtNode::Block(list) => in_statements(list, total),
        StmtNode::Var(list) => in_variables(list, total),
        StmtNode::Expr(a) | StmtNode::Throw(a) => in_expression(a, total),
        StmtNode::If {
            test,
            then,
            other: None,
        } => in_statement(then.get(), in_expression(test, total)),
        StmtNode::If {
            test,
            then,
            other: Some(other),
        } => in_statement(
            other.get(),
            in_statement(then.get(), in_expression(test, total)),
        ),
        StmtNode::Do { body, test } | StmtNode::While { test, body } => {
            in_statement(body.get(), in_expression(test, total))
        }
        StmtNode::For {
            first,
            test,
            update,
            body,
        } => {
            let head = in_held(update, in_held(test, in_first(first, total)));
            in_statement(body.get(), head)
        }
        StmtNode::ForIn { head, value, body } => {
            in_statement(body.get(), in_expression(value, in_head(head, total)))
        }
        StmtNode::Return(value) => in_held(value, total),
        StmtNode::Switch { value, cases } => in_branches(cases, in_expression(value, total)),
        StmtNode::Try {
            body,
            caught: None,
            finally: None,
        } => in_statements(body, total),
        StmtNode::Try {
            body,
            caught: Some((_, handler)),
            finally: None,
        } => in_statements(handler, in_statements(body, total)),
        StmtNode::Try {
            body,
            caught: None,
            finally: Some(last),
        } => in_statements(last, in_statements(body, total)),
        StmtNode::Try {
            body,
            caught: Some((_, handler)),
            finally: Some(last),
        } => in_statements(last, in_statements(handler, in_statements(body, total))),
        StmtNode::Label(_, body) => in_statement(body.get(), total),
        StmtNode::FunctionDecl(f) => functions_in(f, total),
        StmtNode::Continue(_) | StmtNode::Break(_) | StmtNode::Empty => total,
    }
}
