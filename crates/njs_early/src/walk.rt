// The walk over a tree in order of the text, up to the first refusal. Its recursion is as deep as the tree.
#![tactic(auto, using(crate::proofs::First::walking), unfolding(njs_tree::specs::Early::seen, njs_tree::specs::Early::of_stmt, crate::specs::Walk::of_function, crate::specs::Walk::of_case, crate::specs::Walk::seen_first, crate::specs::Walk::seen_head, crate::specs::Around::labels_of))]

ghost use Rattle.std.specs.Prelude.{◌≡◌};
ghost use Rattle.njs_tree.specs.Early as early;
ghost use Rattle.njs_early.specs.Around.{around_of};
ghost use Rattle.njs_early.specs.Walk.{answer, of_expr, maybe, all_exprs, all_elements, all_properties, all_values, declared, target, labelled, all_stmts, of_function, of_case, all_cases, maybe_first, of_head};

use crate::around::{Around, Labels, has_label};
use crate::names::is_protected;
use crate::own;
use njs_text::Text;
use njs_tree::{
    Case, EarlyFault, EarlyKind, Expr, ExprNode, ForFirst, ForInHead, FunctionTree, Stmt, StmtNode,
};
use sqlite_items::Items;

#[cycle(walk)]
fn optional(value: &Option<Expr>, around: &Around<'_>) -> Result<(), EarlyFault>
    ensures { result ≡ answer (maybe value.now (around_of around.now)) }
{
    match value {
        None => Ok(()),
        Some(e) => expr(e, around),
    }
}

#[cycle(walk)]
fn exprs(list: &[Expr], around: &Around<'_>) -> Result<(), EarlyFault>
    ensures { result ≡ answer (all_exprs list.now (around_of around.now)) }
{
    for e in list {
        expr(e, around)?;
    }
    Ok(())
}

#[cycle(walk)]
fn elements(list: &[Option<Expr>], around: &Around<'_>) -> Result<(), EarlyFault>
    ensures { result ≡ answer (all_elements list.now (around_of around.now)) }
{
    for element in list {
        if let Some(e) = element {
            expr(e, around)?;
        }
    }
    Ok(())
}

#[cycle(walk)]
fn properties(list: &[(Text, Expr)], around: &Around<'_>) -> Result<(), EarlyFault>
    ensures { result ≡ answer (all_properties list.now (around_of around.now)) }
{
    for p in list {
        expr(&p.1, around)?;
    }
    Ok(())
}

#[cycle(walk)]
fn values(list: &[(Text, Option<Expr>)], around: &Around<'_>) -> Result<(), EarlyFault>
    ensures { result ≡ answer (all_values list.now (around_of around.now)) }
{
    for value in list {
        if let Some(e) = &value.1 {
            expr(e, around)?;
        }
    }
    Ok(())
}

#[cycle(walk)]
fn declared(list: &[(Text, Option<Expr>)], line: u32, around: &Around<'_>) -> Result<(), EarlyFault>
    ensures { result ≡ answer (declared list.now line (around_of around.now)) }
{
    own::variables(list, line)?;
    values(list, around)
}

#[cycle(walk)]
fn stmts(list: &[Stmt], around: &Around<'_>) -> Result<(), EarlyFault>
    ensures { result ≡ answer (all_stmts list.now (around_of around.now)) }
{
    for s in list {
        stmt(s, around)?;
    }
    Ok(())
}

#[cycle(walk)]
pub fn expr(e: &Expr, around: &Around<'_>) -> Result<(), EarlyFault>
    ensures { result ≡ answer (of_expr e.now (around_of around.now)) }
{
    match &e.node {
        ExprNode::Comma(a, b)
        | ExprNode::Logical(_, a, b)
        | ExprNode::Binary(_, a, b)
        | ExprNode::Index(a, b) => {
            expr(a.get(), around)?;
            expr(b.get(), around)
        }
        ExprNode::Assign(_, target, value) => {
            assigned(target.get(), around)?;
            expr(value.get(), around)
        }
        ExprNode::Cond(a, b, c) => {
            expr(a.get(), around)?;
            expr(b.get(), around)?;
            expr(c.get(), around)
        }
        ExprNode::Unary(op, a) => {
            own::refuse_if(own::deletes_name(*op, a.get()), e.line, EarlyKind::Delete)?;
            expr(a.get(), around)
        }
        ExprNode::Update { target, .. } => assigned(target.get(), around),
        ExprNode::Call(callee, arguments) | ExprNode::New(callee, arguments) => {
            own::arguments(arguments, e.line)?;
            expr(callee.get(), around)?;
            exprs(arguments.as_slice(), around)
        }
        ExprNode::Member(object, _) => expr(object.get(), around),
        ExprNode::Array(list) => elements(list.as_slice(), around),
        ExprNode::Object(list) => properties(list.as_slice(), around),
        ExprNode::Function(f) => function(f, e.line),
        ExprNode::Num(_)
        | ExprNode::Str(_)
        | ExprNode::Name(_)
        | ExprNode::This
        | ExprNode::Null
        | ExprNode::Bool(_) => Ok(()),
    }
}

// An expression that is a target.
#[cycle(walk)]
fn assigned(e: &Expr, around: &Around<'_>) -> Result<(), EarlyFault>
    ensures { result ≡ answer (target e.now (around_of around.now)) }
{
    own::target(e)?;
    expr(e, around)
}

// A function, on the line of the node that it is part of. Its body starts anew.
#[cycle(walk)]
fn function(f: &FunctionTree, line: u32) -> Result<(), EarlyFault>
    ensures { result ≡ answer (of_function f.now line early.outermost) }
{
    own::function(f, line)?;
    let no_labels = Labels::Nothing;
    stmts(f.body.as_slice(), &Around::of_function(&no_labels))
}

#[cycle(walk)]
fn case(part: &Case, around: &Around<'_>) -> Result<(), EarlyFault>
    ensures { result ≡ answer (of_case part.now (around_of around.now)) }
{
    optional(&part.test, around)?;
    stmts(part.body.as_slice(), around)
}

#[cycle(walk)]
fn cases(list: &[Case], around: &Around<'_>) -> Result<(), EarlyFault>
    ensures { result ≡ answer (all_cases list.now (around_of around.now)) }
{
    for part in list {
        case(part, around)?;
    }
    Ok(())
}

#[cycle(walk)]
fn first(part: &Option<ForFirst>, line: u32, around: &Around<'_>) -> Result<(), EarlyFault>
    ensures { result ≡ answer (maybe_first part.now line (around_of around.now)) }
{
    match part {
        None => Ok(()),
        Some(ForFirst::Var(list)) => declared(list.as_slice(), line, around),
        Some(ForFirst::Expr(a)) => expr(a, around),
    }
}

#[cycle(walk)]
fn head(part: &ForInHead, line: u32, around: &Around<'_>) -> Result<(), EarlyFault>
    ensures { result ≡ answer (of_head part.now line (around_of around.now)) }
{
    match part {
        ForInHead::Var(name) => own::refuse_if(is_protected(name), line, EarlyKind::Reserved),
        ForInHead::Target(target) => assigned(target, around),
    }
}

// The statement behind a label, and the label itself.
#[cycle(walk)]
fn labelled(body: &Stmt, label: &Text, line: u32, around: &Around<'_>) -> Result<(), EarlyFault>
    ensures { result ≡ answer (labelled label.now body.now line (around_of around.now)) }
{
    own::refuse_if(has_label(label, around.labels), line, EarlyKind::Label)?;
    let labels = Labels::Inside(label, around.labels);
    stmt(body, &around.with_labels(&labels))
}

#[cycle(walk)]
pub fn stmt(s: &Stmt, around: &Around<'_>) -> Result<(), EarlyFault>
    ensures { result ≡ answer (early.of_stmt s.now (around_of around.now)) }
{
    match &s.node {
        StmtNode::Block(list) => stmts(list.as_slice(), around),
        StmtNode::Var(list) => declared(list.as_slice(), s.line, around),
        StmtNode::Empty => Ok(()),
        StmtNode::Expr(a) | StmtNode::Throw(a) => expr(a, around),
        StmtNode::If { test, then, other } => {
            expr(test, around)?;
            stmt(then.get(), around)?;
            match other {
                None => Ok(()),
                Some(other) => stmt(other.get(), around),
            }
        }
        StmtNode::Do { body, test } => {
            stmt(body.get(), &around.of_loop())?;
            expr(test, around)
        }
        StmtNode::While { test, body } => {
            expr(test, around)?;
            stmt(body.get(), &around.of_loop())
        }
        StmtNode::For {
            first: part,
            test,
            update,
            body,
        } => {
            first(part, s.line, around)?;
            optional(test, around)?;
            optional(update, around)?;
            stmt(body.get(), &around.of_loop())
        }
        StmtNode::ForIn {
            head: part,
            value,
            body,
        } => {
            head(part, s.line, around)?;
            expr(value, around)?;
            stmt(body.get(), &around.of_loop())
        }
        StmtNode::Continue(label) => own::continued(label, s.line, around),
        StmtNode::Break(label) => own::broken(label, s.line, around),
        StmtNode::Return(value) => {
            own::refuse_if(!around.in_function, s.line, EarlyKind::Return)?;
            optional(value, around)
        }
        StmtNode::Switch { value, cases: list } => {
            expr(value, around)?;
            cases(list.as_slice(), &around.of_switch())
        }
        StmtNode::Try {
            body,
            caught,
            finally,
        } => {
            own::caught(caught, s.line)?;
            stmts(body.as_slice(), around)?;
            if let Some((_, block)) = caught {
                stmts(block.as_slice(), around)?;
            }
            match finally {
                None => Ok(()),
                Some(block) => stmts(block.as_slice(), around),
            }
        }
        StmtNode::Label(label, body) => labelled(body.get(), label, s.line, around),
        StmtNode::FunctionDecl(f) => function(f, s.line),
    }
}
