//! What several statements begin with or hold.
ghost use Rattle.std.specs.Prelude.{◌≡◌, false};
ghost use Rattle.njs_expr.specs.Statements as spec;
ghost use Rattle.njs_expr.specs.Descent.{expr, stmt};
ghost use Rattle.njs_expr.specs.Reads.{Reads, ReadsExpr, ReadsStmt};

use crate::ParseStop;
use crate::cursor::Cursor;
use crate::grammar::Grammar;
use crate::trees::{ExprTree, StmtTree};
use njs_tree::{Expr, Mark, Stmt};
use sqlite_items::Boxed;
use std::alloc::Global;
use std::marker::PhantomData;

impl<
    T: ExprTree,
    S: StmtTree,
    F: Fn(
        PhantomData<(T, S)>,
        Global,
        &mut Cursor<'_>,
        usize,
        bool,
        usize,
        usize,
    ) -> Result<(T, usize), ParseStop>,
    G: Fn(
        PhantomData<(T, S)>,
        Global,
        &mut Cursor<'_>,
        usize,
        bool,
        usize,
    ) -> Result<(S, usize), ParseStop>,
> Grammar<T, S, F, G> {
    /// A statement in a statement.
    pub fn body(
        &self,
        cursor: &mut Cursor<'_>,
        room: usize,
    ) -> Result<(Boxed<Stmt>, usize), ParseStop>
        requires stmt { ReadsStmt S.stands self.now.fuel (G.pre self.now.stmt) (G.post self.now.stmt) }
        ensures { Reads (stmt self.now.fuel false room cursor.old) result cursor.new }
    {
        self.nested_statement(cursor, false, room)
    }

    /// An expression in parentheses.
    #[tactic(auto, unfolding(crate::specs::Statements::grouped))]
    #[inline(never)]
    pub fn grouped(&self, cursor: &mut Cursor<'_>, room: usize) -> Result<(Expr, usize), ParseStop>
        requires expr { ReadsExpr T.stands self.now.fuel (F.pre self.now.expr) (F.post self.now.expr) }
        ensures { Reads (spec.grouped (expr self.now.fuel) room cursor.old) result cursor.new }
    {
        cursor.expect(Mark::LeftParen)?;
        let value = self.nested(cursor, true, 1, room)?;
        cursor.expect(Mark::RightParen)?;
        Ok(value)
    }

    /// A nested expression in a box, made in a frame of its own, which no nested statement waits on.
    #[inline(never)]
    pub fn boxed(
        &self,
        cursor: &mut Cursor<'_>,
        with_in: bool,
        room: usize,
    ) -> Result<(Boxed<Expr>, usize), ParseStop>
        requires expr { ReadsExpr T.stands self.now.fuel (F.pre self.now.expr) (F.post self.now.expr) }
        ensures { Reads (expr self.now.fuel with_in 1 room cursor.old) result cursor.new }
    {
        let (value, depth) = self.nested(cursor, with_in, 1, room)?;
        Ok((Boxed::new(self.alloc, value)?, depth))
    }

    #[tactic(auto, unfolding(crate::specs::Statements::given))]
    fn given(
        &self,
        cursor: &mut Cursor<'_>,
        room: usize,
        mark: Mark,
    ) -> Result<(Option<Boxed<Expr>>, usize), ParseStop>
        requires expr { ReadsExpr T.stands self.now.fuel (F.pre self.now.expr) (F.post self.now.expr) }
        ensures { Reads (spec.given (expr self.now.fuel) room mark cursor.old) result cursor.new }
    {
        let (value, depth) = self.boxed(cursor, true, room)?;
        cursor.expect(mark)?;
        Ok((Some(value), depth))
    }

    /// An expression or none, and then the mark.
    #[tactic(auto, unfolding(crate::specs::Statements::optional))]
    pub fn optional(
        &self,
        cursor: &mut Cursor<'_>,
        room: usize,
        mark: Mark,
    ) -> Result<(Option<Boxed<Expr>>, usize), ParseStop>
        requires expr { ReadsExpr T.stands self.now.fuel (F.pre self.now.expr) (F.post self.now.expr) }
        ensures { Reads (spec.optional (expr self.now.fuel) room mark cursor.old) result cursor.new }
    {
        if cursor.eat(mark) {
            Ok((None, 0))
        } else {
            self.given(cursor, room, mark)
        }
    }
}
