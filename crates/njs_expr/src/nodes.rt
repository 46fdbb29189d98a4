//! Nodes, each one level above its parts.
ghost use Rattle.std.specs.Prelude.{◌≡◌, IfOk, Some, None, pos};
ghost use Rattle.njs_tree.specs.declared.tree.ExprNode.TheVariants as node;
ghost use Rattle.njs_expr.specs.Readers as spec;
ghost use Rattle.njs_expr.specs.Reads.{Reads};

use crate::ParseStop;
use crate::cursor::Cursor;
use njs_text::Text;
use njs_tree::{BinaryOp, Expr, ExprNode, LogicalOp, Stmt, StmtNode, UnaryOp, UpdateOp};
use sqlite_items::{Boxed, Items};
use std::alloc::{AllocError, Global};

/// The node with its depth, where the depth is allowed.
#[tactic(auto, unfolding(crate::specs::Readers::grown))]
#[inline(never)]
pub fn grown(
    cursor: &Cursor<'_>,
    room: usize,
    line: u32,
    node: ExprNode,
    below: usize,
) -> Result<(Expr, usize), ParseStop>
    ensures { Reads (spec.grown room line node below cursor.now) result cursor.now }
{
    if below < room {
        Ok((Expr { line, node }, below + 1))
    } else {
        Err(cursor.refuse())
    }
}

/// The statement with its depth, where the depth is allowed.
#[tactic(auto, unfolding(crate::specs::Readers::stood))]
#[inline(never)]
pub fn stood(
    alloc: Global,
    cursor: &Cursor<'_>,
    room: usize,
    line: u32,
    node: StmtNode,
    below: usize,
) -> Result<(Boxed<Stmt>, usize), ParseStop>
    ensures { Reads (spec.stood room line node below cursor.now) result cursor.now }
{
    if below < room {
        Ok((Boxed::new(alloc, Stmt { line, node })?, below + 1))
    } else {
        Err(cursor.refuse())
    }
}

pub fn comma(alloc: Global, a: Expr, b: Expr) -> Result<ExprNode, AllocError>
    ensures { IfOk result (λ n. n ≡ node.Comma a b) }
{
    Ok(ExprNode::Comma(Boxed::new(alloc, a)?, Boxed::new(alloc, b)?))
}

pub fn assign(alloc: Global, op: Option<BinaryOp>, a: Expr, b: Expr) -> Result<ExprNode, AllocError>
    ensures { IfOk result (λ n. n ≡ node.Assign op a b) }
{
    Ok(ExprNode::Assign(op, Boxed::new(alloc, a)?, Boxed::new(alloc, b)?))
}

pub fn conditional(alloc: Global, a: Expr, b: Expr, c: Expr) -> Result<ExprNode, AllocError>
    ensures { IfOk result (λ n. n ≡ node.Cond a b c) }
{
    Ok(ExprNode::Cond(
        Boxed::new(alloc, a)?,
        Boxed::new(alloc, b)?,
        Boxed::new(alloc, c)?,
    ))
}

pub fn logical(alloc: Global, op: LogicalOp, a: Expr, b: Expr) -> Result<ExprNode, AllocError>
    ensures { IfOk result (λ n. n ≡ node.Logical op a b) }
{
    Ok(ExprNode::Logical(op, Boxed::new(alloc, a)?, Boxed::new(alloc, b)?))
}

pub fn binary(alloc: Global, op: BinaryOp, a: Expr, b: Expr) -> Result<ExprNode, AllocError>
    ensures { IfOk result (λ n. n ≡ node.Binary op a b) }
{
    Ok(ExprNode::Binary(op, Boxed::new(alloc, a)?, Boxed::new(alloc, b)?))
}

pub fn unary(alloc: Global, op: UnaryOp, a: Expr) -> Result<ExprNode, AllocError>
    ensures { IfOk result (λ n. n ≡ node.Unary op a) }
{
    Ok(ExprNode::Unary(op, Boxed::new(alloc, a)?))
}

pub fn update(alloc: Global, op: UpdateOp, prefix: bool, a: Expr) -> Result<ExprNode, AllocError>
    ensures { IfOk result (λ n. n ≡ node.Update op prefix a) }
{
    Ok(ExprNode::Update {
        op,
        prefix,
        target: Boxed::new(alloc, a)?,
    })
}

pub fn call(alloc: Global, a: Expr, xs: Items<Expr>) -> Result<ExprNode, AllocError>
    ensures { IfOk result (λ n. n ≡ node.Call a xs) }
{
    Ok(ExprNode::Call(Boxed::new(alloc, a)?, xs))
}

pub fn constructed(alloc: Global, a: Expr, xs: Items<Expr>) -> Result<ExprNode, AllocError>
    ensures { IfOk result (λ n. n ≡ node.New a xs) }
{
    Ok(ExprNode::New(Boxed::new(alloc, a)?, xs))
}

pub fn member(alloc: Global, a: Expr, name: Text) -> Result<ExprNode, AllocError>
    ensures { IfOk result (λ n. n ≡ node.Member a name) }
{
    Ok(ExprNode::Member(Boxed::new(alloc, a)?, name))
}

pub fn index(alloc: Global, a: Expr, b: Expr) -> Result<ExprNode, AllocError>
    ensures { IfOk result (λ n. n ≡ node.Index a b) }
{
    Ok(ExprNode::Index(Boxed::new(alloc, a)?, Boxed::new(alloc, b)?))
}
