// The operations of small trees, counted by hand.
use crate::size;
use njs_text::Text;
use njs_tree::{Expr, ExprNode, ForInHead, Stmt, StmtNode};
use sqlite_items::Boxed;
use std::alloc::{AllocError, Global};
use std::test::Fail;

fn expr(node: ExprNode) -> Expr {
    Expr { line: 1, node }
}

fn name() -> Expr {
    expr(ExprNode::Name(Text::fixed("a")))
}

fn stmt(node: StmtNode) -> Stmt {
    Stmt { line: 1, node }
}

fn empty(alloc: Global) -> Result<Boxed<Stmt>, AllocError> {
    Boxed::new(alloc, stmt(StmtNode::Empty))
}

#[test]
fn expressions_are_counted(rt: HostRuntime) -> Result<(), Fail> {
    // a tick and the value of the name
    assert_eq!(rt; size::value(&name(), 0), 2);
    assert_eq!(rt; size::target(&name(), 5), 6);
    let target = Boxed::new(rt.alloc(), name())?;
    let value = Boxed::new(rt.alloc(), expr(ExprNode::This))?;
    // a tick, the tick of the name, a tick and `this`, and what stores it
    let assigned = expr(ExprNode::Assign(None, target, value));
    assert_eq!(rt; size::value(&assigned, 0), 5);
    Ok(())
}

#[test]
fn statements_are_counted(rt: HostRuntime) -> Result<(), Fail> {
    assert_eq!(rt; size::statement(&stmt(StmtNode::Empty), 0), 1);
    // two ticks, the value, and what drops it
    assert_eq!(rt; size::statement(&stmt(StmtNode::Expr(name())), 0), 4);
    // a tick, `undefined` and the return
    assert_eq!(rt; size::statement(&stmt(StmtNode::Return(None)), 0), 3);
    // a tick, and for each turn a tick, the test and its jump, the body and its end, and the jump back
    let body = empty(rt.alloc())?;
    let turns = stmt(StmtNode::While { test: name(), body });
    assert_eq!(rt; size::statement(&turns, 0), 8);
    Ok(())
}

#[test]
fn names_are_listed(rt: HostRuntime) -> Result<(), Fail> {
    // a tick, the object and its list, the first test, and for each turn a tick, the next name, what stores and drops it, the
    // body and its end, the test and the jump back, and in the end what drops the list
    let body = empty(rt.alloc())?;
    let head = ForInHead::Var(Text::fixed("x"));
    let each = stmt(StmtNode::ForIn {
        head,
        value: name(),
        body,
    });
    assert_eq!(rt; size::statement(&each, 0), 14);
    Ok(())
}

#[test]
fn no_more_is_counted_than_too_many(rt: HostRuntime) {
    assert_eq!(rt; size::value(&name(), size::TOO_MANY), size::TOO_MANY);
    assert_eq!(rt; size::value(&name(), size::TOO_MANY - 2), size::TOO_MANY);
    assert_eq!(rt;
        size::value(&name(), size::TOO_MANY - 3),
        size::TOO_MANY - 1
    );
}
