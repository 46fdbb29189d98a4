//! The rules take the readers of nested expressions and statements as function values, so that each is proved by itself.
//!
//! A rule that holds trees while it reads others is never inlined, so that a level of nesting costs the stack of just those rules
//! that it passes. Statements, and what the head of a `for` holds, are in boxes meanwhile.
ghost use Rattle.njs_expr.specs.Descent.{expr, stmt};
ghost use Rattle.njs_expr.specs.Reads.{Reads, ReadsExpr, ReadsStmt};

use crate::ParseStop;
use crate::cursor::Cursor;
use crate::trees::{ExprTree, StmtTree};
use njs_tree::{Expr, Stmt};
use sqlite_items::Boxed;
use std::alloc::Global;
use std::marker::PhantomData;

#[derive(Drop)]
pub struct Grammar<T, S, F, G> {
    pub alloc: Global,
    /// How deep expressions and statements may still nest.
    pub fuel: usize,
    pub expr: F,
    pub stmt: G,
    pub trees: PhantomData<(T, S)>,
}

impl<
    T: ExprTree,
    S: StmtTree,
    F: Fn(
        PhantomData<(T, S)>,
        Global,
        &mut Cursor<'_>,
        usize,
        bool,
        usize,
        usize,
    ) -> Result<(T, usize), ParseStop>,
    G: Fn(
        PhantomData<(T, S)>,
        Global,
        &mut Cursor<'_>,
        usize,
        bool,
        usize,
    ) -> Result<(S, usize), ParseStop>,
> Grammar<T, S, F, G> {
    /// A nested expression whose operators bind at least as tight as `least`, of a depth of at most `room`.
    pub fn nested(
        &self,
        cursor: &mut Cursor<'_>,
        with_in: bool,
        least: usize,
        room: usize,
    ) -> Result<(Expr, usize), ParseStop>
        requires expr { ReadsExpr T.stands self.now.fuel (F.pre self.now.expr) (F.post self.now.expr) }
        ensures { Reads (expr self.now.fuel with_in least room cursor.old) result cursor.new }
    {
        match (self.expr)(
            PhantomData,
            self.alloc,
            cursor,
            self.fuel,
            with_in,
            least,
            room,
        ) {
            Ok((tree, depth)) => Ok((tree.into_tree(), depth)),
            Err(stop) => Err(stop),
        }
    }

    /// A nested statement of a depth of at most `room`, or where `declares` holds the declaration of a function.
    pub fn nested_statement(
        &self,
        cursor: &mut Cursor<'_>,
        declares: bool,
        room: usize,
    ) -> Result<(Boxed<Stmt>, usize), ParseStop>
        requires stmt { ReadsStmt S.stands self.now.fuel (G.pre self.now.stmt) (G.post self.now.stmt) }
        ensures { Reads (stmt self.now.fuel declares room cursor.old) result cursor.new }
    {
        match (self.stmt)(PhantomData, self.alloc, cursor, self.fuel, declares, room) {
            Ok((tree, depth)) => Ok((tree.into_tree(), depth)),
            Err(stop) => Err(stop),
        }
    }
}
