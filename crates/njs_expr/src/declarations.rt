//! `var` (ECMA-262 5.1 §12.2), and functions that are declared (ECMA-262 5.1 §13).
ghost use Rattle.std.specs.Prelude.{◌≡◌, false};
ghost use Rattle.njs_expr.specs.Statements as spec;
ghost use Rattle.njs_expr.specs.Descent.{expr, stmt};
ghost use Rattle.njs_expr.specs.Reads.{Reads, ReadsExpr, ReadsStmt};

use crate::ParseStop;
use crate::cursor::Cursor;
use crate::grammar::Grammar;
use crate::nodes::stood;
use crate::trees::{ExprTree, StmtTree};
use njs_text::Text;
use njs_tree::{Expr, Mark, Stmt, StmtNode};
use sqlite_items::{Boxed, Items};
use std::alloc::Global;
use std::marker::PhantomData;

impl<
    T: ExprTree,
    S: StmtTree,
    F: Fn(
        PhantomData<(T, S)>,
        Global,
        &mut Cursor<'_>,
        usize,
        bool,
        usize,
        usize,
    ) -> Result<(T, usize), ParseStop>,
    G: Fn(
        PhantomData<(T, S)>,
        Global,
        &mut Cursor<'_>,
        usize,
        bool,
        usize,
    ) -> Result<(S, usize), ParseStop>,
> Grammar<T, S, F, G> {
    #[tactic(auto, unfolding(crate::specs::Statements::assigned_value))]
    #[inline(never)]
    fn assigned_value(
        &self,
        cursor: &mut Cursor<'_>,
        with_in: bool,
        room: usize,
    ) -> Result<(Option<Expr>, usize), ParseStop>
        requires expr { ReadsExpr T.stands self.now.fuel (F.pre self.now.expr) (F.post self.now.expr) }
        ensures { Reads (spec.assigned_value (expr self.now.fuel) with_in room cursor.old) result cursor.new }
    {
        let (value, depth) = self.nested(cursor, with_in, 2, room)?;
        Ok((Some(value), depth))
    }

    #[tactic(auto, unfolding(crate::specs::Statements::initial_value))]
    fn initial_value(
        &self,
        cursor: &mut Cursor<'_>,
        with_in: bool,
        room: usize,
    ) -> Result<(Option<Expr>, usize), ParseStop>
        requires expr { ReadsExpr T.stands self.now.fuel (F.pre self.now.expr) (F.post self.now.expr) }
        ensures { Reads (spec.initial_value (expr self.now.fuel) with_in room cursor.old) result cursor.new }
    {
        if cursor.eat(Mark::Assign) {
            self.assigned_value(cursor, with_in, room)
        } else {
            Ok((None, 0))
        }
    }

    #[tactic(auto, unfolding(crate::specs::Statements::declarator))]
    fn declarator(
        &self,
        cursor: &mut Cursor<'_>,
        with_in: bool,
        room: usize,
    ) -> Result<((Text, Option<Expr>), usize), ParseStop>
        requires expr { ReadsExpr T.stands self.now.fuel (F.pre self.now.expr) (F.post self.now.expr) }
        ensures { Reads (spec.declarator (expr self.now.fuel) with_in room cursor.old) result cursor.new }
    {
        let name = cursor.name(self.alloc)?;
        let (value, depth) = self.initial_value(cursor, with_in, room)?;
        Ok(((name, value), depth))
    }

    #[tactic(auto, unfolding(crate::specs::Statements::whole_declarators, crate::specs::Statements::declarators))]
    #[inline(never)]
    pub fn declarators(
        &self,
        cursor: &mut Cursor<'_>,
        with_in: bool,
        room: usize,
    ) -> Result<(Items<(Text, Option<Expr>)>, usize), ParseStop>
        requires expr { ReadsExpr T.stands self.now.fuel (F.pre self.now.expr) (F.post self.now.expr) }
        ensures { Reads (spec.whole_declarators (expr self.now.fuel) with_in room cursor.old) result cursor.new }
    {
        let mut found = Items::new(self.alloc);
        let mut below: usize = 0;
        for _turn in 0..cursor.left() {
            let (variable, depth) = self.declarator(cursor, with_in, room)?;
            found.push(variable)?;
            below = below.max(depth);
            if !cursor.eat(Mark::Comma) {
                return Ok((found, below));
            }
        }
        Err(cursor.refuse())
    }

    #[tactic(auto, unfolding(crate::specs::Statements::var_by))]
    #[inline(never)]
    pub fn var_by(
        &self,
        cursor: &mut Cursor<'_>,
        room: usize,
        line: u32,
    ) -> Result<(Boxed<Stmt>, usize), ParseStop>
        requires expr { ReadsExpr T.stands self.now.fuel (F.pre self.now.expr) (F.post self.now.expr) }
        ensures { Reads (spec.var_by (expr self.now.fuel) room line cursor.old) result cursor.new }
    {
        let (variables, depth) = self.declarators(cursor, true, room.saturating_sub(1))?;
        cursor.semicolon()?;
        stood(
            self.alloc,
            cursor,
            room,
            line,
            StmtNode::Var(variables),
            depth,
        )
    }

    #[tactic(auto, unfolding(crate::specs::Statements::declaration_by))]
    #[inline(never)]
    fn declaration_by(
        &self,
        cursor: &mut Cursor<'_>,
        room: usize,
        line: u32,
    ) -> Result<(Boxed<Stmt>, usize), ParseStop>
        requires stmt { ReadsStmt S.stands self.now.fuel (G.pre self.now.stmt) (G.post self.now.stmt) }
        ensures { Reads (spec.declaration_by (stmt self.now.fuel) room line cursor.old) result cursor.new }
    {
        let name = cursor.name(self.alloc)?;
        let (function, depth) = self.function(cursor, room, Some(name))?;
        stood(
            self.alloc,
            cursor,
            room,
            line,
            StmtNode::FunctionDecl(function),
            depth,
        )
    }

    #[tactic(auto, unfolding(crate::specs::Statements::function_by))]
    pub fn function_by(
        &self,
        cursor: &mut Cursor<'_>,
        declares: bool,
        room: usize,
        line: u32,
    ) -> Result<(Boxed<Stmt>, usize), ParseStop>
        requires stmt { ReadsStmt S.stands self.now.fuel (G.pre self.now.stmt) (G.post self.now.stmt) }
        ensures { Reads (spec.function_by (expr self.now.fuel) (stmt self.now.fuel) declares room line cursor.old) result cursor.new }
    {
        if !declares {
            return Err(cursor.refuse());
        }
        cursor.take();
        self.declaration_by(cursor, room, line)
    }
}
