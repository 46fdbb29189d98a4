//! The trees that a rule reads of another, as type parameters.
//!
//! A rule takes the readers of nested expressions and statements as function values, and those name no type that borrows for
//! `'static`, as texts do.
ghost use Rattle.std.specs.Prelude.{◌≡◌};
ghost use Rattle.njs_tree.specs.declared.tree.Expr.{Expr as Expression};
ghost use Rattle.njs_tree.specs.declared.tree.Stmt.{Stmt as Statement};
ghost use Rattle.njs_expr.specs.Reads.{Builds};

use crate::ParseStop;
use njs_tree::{Expr, Stmt};
use sqlite_items::Boxed;

pub trait ExprTree: Drop + Sized {
    ghost stands: { Self → Expression };

    fn from_tree(tree: Expr) -> Self
        ensures { stands result ≡ tree };

    fn into_tree(self) -> Expr
        ensures { result ≡ stands self };
}

impl ExprTree for Expr {
    ghost stands = { λ tree. tree };

    fn from_tree(tree: Expr) -> Expr {
        tree
    }

    fn into_tree(self) -> Expr {
        self
    }
}

pub trait StmtTree: Drop + Sized {
    ghost stands: { Self → Statement };

    fn from_tree(tree: Boxed<Stmt>) -> Self
        ensures { stands result ≡ tree };

    fn into_tree(self) -> Boxed<Stmt>
        ensures { result ≡ stands self };
}

impl StmtTree for Boxed<Stmt> {
    ghost stands = { λ tree. tree };

    fn from_tree(tree: Boxed<Stmt>) -> Boxed<Stmt> {
        tree
    }

    fn into_tree(self) -> Boxed<Stmt> {
        self
    }
}

pub fn expression_from<T: ExprTree>(
    outcome: Result<(Expr, usize), ParseStop>,
) -> Result<(T, usize), ParseStop>
    ensures { Builds T.stands outcome result }
{
    match outcome {
        Ok((tree, depth)) => Ok((T::from_tree(tree), depth)),
        Err(stop) => Err(stop),
    }
}

pub fn statement_from<S: StmtTree>(
    outcome: Result<(Boxed<Stmt>, usize), ParseStop>,
) -> Result<(S, usize), ParseStop>
    ensures { Builds S.stands outcome result }
{
    match outcome {
        Ok((tree, depth)) => Ok((S::from_tree(tree), depth)),
        Err(stop) => Err(stop),
    }
}
