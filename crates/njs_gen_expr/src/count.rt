//! How many names in use and functions stand in a tree, up to the largest number. The recursion is as deep as the tree.
#![tactic(auto, using(crate::proofs::Trees::counts), unfolding(njs_scope::specs::Uses::expression, njs_scope::specs::Uses::statement, njs_scope::specs::Uses::function, njs_scope::specs::Uses::branch, njs_scope::specs::Uses::first, njs_scope::specs::Uses::head))]

ghost use Rattle.std.specs.Prelude.{ℕ, ◌≡◌, ◌+◌};
ghost use Rattle.njs_meaning.specs.Places.{Around};
ghost use Rattle.njs_scope.specs.Uses as uses;
ghost use Rattle.njs_gen_expr.specs.Written.{most};
ghost use Rattle.njs_gen_expr.specs.Counted.{in_part, in_list, in_statements, in_elements, in_fields, in_variables, in_held, in_branches, in_first, in_function};

use njs_text::Text;
use njs_tree::{Case, Expr, ExprNode, ForFirst, ForInHead, FunctionTree, Stmt, StmtNode};
use sqlite_items::Items;

/// The names in use in an expression, added to a total.
#[cycle(uses)]
pub fn uses_in(e: &Expr, total: usize) -> usize
    ensures { (start : ℕ) (names : Around) → result ≡ most (total + in_part (uses.expression e.now) start names) }
{
    match &e.node {
        ExprNode::Comma(a, b)
        | ExprNode::Assign(_, a, b)
        | ExprNode::Logical(_, a, b)
        | ExprNode::Binary(_, a, b)
        | ExprNode::Index(a, b) => uses_in(b.get(), uses_in(a.get(), total)),
        ExprNode::Cond(a, b, c) => uses_in(c.get(), uses_in(b.get(), uses_in(a.get(), total))),
        ExprNode::Unary(_, a) | ExprNode::Member(a, _) | ExprNode::Update { target: a, .. } => {
            uses_in(a.get(), total)
        }
        ExprNode::Call(callee, arguments) | ExprNode::New(callee, arguments) => {
            in_list(arguments, uses_in(callee.get(), total))
        }
        ExprNode::Array(list) => in_elements(list, total),
        ExprNode::Object(list) => in_fields(list, total),
        ExprNode::Function(f) => uses_in_function(f, total),
        ExprNode::Name(_) => total.saturating_add(1),
        ExprNode::Num(_) | ExprNode::Str(_) | ExprNode::This | ExprNode::Null | ExprNode::Bool(_) =>
            total,
    }
}

#[cycle(uses)]
fn in_list(list: &Items<Expr>, total: usize) -> usize
    ensures { (start : ℕ) (names : Around) → result ≡ most (total + in_list list.now start names) }
{
    let list = list.as_slice();
    let mut sum: usize = 0;
    for i in (0..list.len()).rev() {
        sum = uses_in(&list[i], sum);
    }
    sum.saturating_add(total)
}

#[cycle(uses)]
fn in_elements(list: &Items<Option<Expr>>, total: usize) -> usize
    ensures { (start : ℕ) (names : Around) → result ≡ most (total + in_elements list.now start names) }
{
    let list = list.as_slice();
    let mut sum: usize = 0;
    for i in (0..list.len()).rev() {
        if let Some(e) = &list[i] {
            sum = uses_in(e, sum);
        }
    }
    sum.saturating_add(total)
}

#[cycle(uses)]
fn in_fields(list: &Items<(Text, Expr)>, total: usize) -> usize
    ensures { (start : ℕ) (names : Around) → result ≡ most (total + in_fields list.now start names) }
{
    let list = list.as_slice();
    let mut sum: usize = 0;
    for i in (0..list.len()).rev() {
        sum = uses_in(&list[i].1, sum);
    }
    sum.saturating_add(total)
}

// A part that may be missing.
#[cycle(uses)]
fn in_held(part: &Option<Expr>, total: usize) -> usize
    ensures { (start : ℕ) (names : Around) → result ≡ most (total + in_held part.now start names) }
{
    match part {
        None => total,
        Some(e) => uses_in(e, total),
    }
}

#[cycle(uses)]
fn in_variables(list: &Items<(Text, Option<Expr>)>, total: usize) -> usize
    ensures { (start : ℕ) (names : Around) → result ≡ most (total + in_variables list.now start names) }
{
    let list = list.as_slice();
    let mut sum: usize = 0;
    for i in (0..list.len()).rev() {
        if let Some(e) = &list[i].1 {
            sum = uses_in(e, sum.saturating_add(1));
        }
    }
    sum.saturating_add(total)
}

#[cycle(uses)]
fn in_first(part: &Option<ForFirst>, total: usize) -> usize
    ensures { (start : ℕ) (names : Around) → result ≡ most (total + in_first part.now start names) }
{
    match part {
        None => total,
        Some(ForFirst::Var(list)) => in_variables(list, total),
        Some(ForFirst::Expr(e)) => uses_in(e, total),
    }
}

#[cycle(uses)]
fn in_head(part: &ForInHead, total: usize) -> usize
    ensures { (start : ℕ) (names : Around) → result ≡ most (total + in_part (uses.head part.now) start names) }
{
    match part {
        ForInHead::Var(_) => total.saturating_add(1),
        ForInHead::Target(e) => uses_in(e, total),
    }
}

/// The names in use in a function, added to a total.
#[cycle(uses)]
pub fn uses_in_function(f: &FunctionTree, total: usize) -> usize
    ensures { (start : ℕ) (names : Around) → result ≡ most (total + in_function f.now start names) }
{
    in_statements(&f.body, total)
}

#[cycle(uses)]
pub fn in_statements(list: &Items<Stmt>, total: usize) -> usize
    ensures { (start : ℕ) (names : Around) → result ≡ most (total + in_statements list.now start names) }
{
    let list = list.as_slice();
    let mut sum: usize = 0;
    for i in (0..list.len()).rev() {
        sum = in_statement(&list[i], sum);
    }
    sum.saturating_add(total)
}

#[cycle(uses)]
fn in_branch(part: &Case, total: usize) -> usize
    ensures { (start : ℕ) (names : Around) → result ≡ most (total + in_part (uses.branch part.now) start names) }
{
    in_statements(&part.body, in_held(&part.test, total))
}

#[cycle(uses)]
fn in_branches(list: &Items<Case>, total: usize) -> usize
    ensures { (start : ℕ) (names : Around) → result ≡ most (total + in_branches list.now start names) }
{
    let list = list.as_slice();
    let mut sum: usize = 0;
    for i in (0..list.len()).rev() {
        sum = in_branch(&list[i], sum);
    }
    sum.saturating_add(total)
}

#[cycle(uses)]
pub fn in_statement(s: &Stmt, total: usize) -> usize
    ensures { (start : ℕ) (names : Around) → result ≡ most (total + in_part (uses.statement s.now) start names) }
{
    match &s.node {
        StmtNode::Block(list) => in_statements(list, total),
        StmtNode::Var(list) => in_variables(list, total),
        StmtNode::Expr(a) | StmtNode::Throw(a) => uses_in(a, total),
        StmtNode::If {
            test,
            then,
            other: None,
        } => in_statement(then.get(), uses_in(test, total)),
        StmtNode::If {
            test,
            then,
            other: Some(other),
        } => in_statement(other.get(), in_statement(then.get(), uses_in(test, total))),
        StmtNode::Do { body, test } | StmtNode::While { test, body } => {
            in_statement(body.get(), uses_in(test, total))
        }
        StmtNode::For {
            first,
            test,
            update,
            body,
        } => {
            let head = in_held(update, in_held(test, in_first(first, total)));
            in_statement(body.get(), head)
        }
        StmtNode::ForIn { head, value, body } => {
            in_statement(body.get(), uses_in(value, in_head(head, total)))
        }
        StmtNode::Return(value) => in_held(value, total),
        StmtNode::Switch { value, cases } => in_branches(cases, uses_in(value, total)),
        StmtNode::Try {
            body,
            caught: None,
            finally: None,
        } => in_statements(body, total),
        StmtNode::Try {
            body,
            caught: Some((_, handler)),
            finally: None,
        } => in_statements(handler, in_statements(body, total)),
        StmtNode::Try {
            body,
            caught: None,
            finally: Some(last),
        } => in_statements(last, in_statements(body, total)),
        StmtNode::Try {
            body,
            caught: Some((_, handler)),
            finally: Some(last),
        } => in_statements(last, in_statements(handler, in_statements(body, total))),
        StmtNode::Label(_, body) => in_statement(body.get(), total),
        StmtNode::FunctionDecl(f) => uses_in_function(f, total),
        StmtNode::Continue(_) | StmtNode::Break(_) | StmtNode::Empty => total,
    }
}
