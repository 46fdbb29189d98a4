//! `if` (ECMA-262 5.1 §12.5) and `switch` (ECMA-262 5.1 §12.11).
ghost use Rattle.std.specs.Prelude.{◌≡◌, false};
ghost use Rattle.njs_expr.specs.Statements as spec;
ghost use Rattle.njs_expr.specs.Descent.{expr, stmt};
ghost use Rattle.njs_expr.specs.Reads.{Reads, ReadsExpr, ReadsStmt};

use crate::cursor::Cursor;
use crate::grammar::Grammar;
use crate::nodes::stood;
use crate::trees::{ExprTree, StmtTree};
use crate::{ParseStop, Terminal};
use njs_tree::{Case, Expr, Keyword, Mark, Stmt, StmtNode};
use sqlite_items::{Boxed, Items};
use std::alloc::Global;
use std::marker::PhantomData;

impl<
    T: ExprTree,
    S: StmtTree,
    F: Fn(
        PhantomData<(T, S)>,
        Global,
        &mut Cursor<'_>,
        usize,
        bool,
        usize,
        usize,
    ) -> Result<(T, usize), ParseStop>,
    G: Fn(
        PhantomData<(T, S)>,
        Global,
        &mut Cursor<'_>,
        usize,
        bool,
        usize,
    ) -> Result<(S, usize), ParseStop>,
> Grammar<T, S, F, G> {
    #[tactic(auto, unfolding(crate::specs::Statements::else_by))]
    #[inline(never)]
    fn else_by(
        &self,
        cursor: &mut Cursor<'_>,
        room: usize,
        line: u32,
        test: (Expr, usize),
        chosen: (Boxed<Stmt>, usize),
    ) -> Result<(Boxed<Stmt>, usize), ParseStop>
        requires expr { ReadsExpr T.stands self.now.fuel (F.pre self.now.expr) (F.post self.now.expr) }
        requires stmt { ReadsStmt S.stands self.now.fuel (G.pre self.now.stmt) (G.post self.now.stmt) }
        ensures { Reads (spec.else_by (expr self.now.fuel) (stmt self.now.fuel) room line test chosen cursor.old) result cursor.new }
    {
        let (test, test_depth) = test;
        let (chosen, chosen_depth) = chosen;
        let (other, depth) = self.body(cursor, room.saturating_sub(1))?;
        let node = StmtNode::If {
            test,
            then: chosen,
            other: Some(other),
        };
        stood(
            self.alloc,
            cursor,
            room,
            line,
            node,
            test_depth.max(chosen_depth.max(depth)),
        )
    }

    #[tactic(auto, unfolding(crate::specs::Statements::if_by))]
    #[inline(never)]
    pub fn if_by(
        &self,
        cursor: &mut Cursor<'_>,
        room: usize,
        line: u32,
    ) -> Result<(Boxed<Stmt>, usize), ParseStop>
        requires expr { ReadsExpr T.stands self.now.fuel (F.pre self.now.expr) (F.post self.now.expr) }
        requires stmt { ReadsStmt S.stands self.now.fuel (G.pre self.now.stmt) (G.post self.now.stmt) }
        ensures { Reads (spec.if_by (expr self.now.fuel) (stmt self.now.fuel) room line cursor.old) result cursor.new }
    {
        let test = self.grouped(cursor, room.saturating_sub(1))?;
        let chosen = self.body(cursor, room.saturating_sub(1))?;
        if cursor.eat_word(Keyword::Else) {
            return self.else_by(cursor, room, line, test, chosen);
        }
        let (test, test_depth) = test;
        let (chosen, chosen_depth) = chosen;
        let node = StmtNode::If {
            test,
            then: chosen,
            other: None,
        };
        stood(
            self.alloc,
            cursor,
            room,
            line,
            node,
            test_depth.max(chosen_depth),
        )
    }

    #[tactic(auto, unfolding(crate::specs::Statements::tested))]
    #[inline(never)]
    fn tested(
        &self,
        cursor: &mut Cursor<'_>,
        room: usize,
    ) -> Result<(Option<Expr>, usize), ParseStop>
        requires expr { ReadsExpr T.stands self.now.fuel (F.pre self.now.expr) (F.post self.now.expr) }
        requires stmt { ReadsStmt S.stands self.now.fuel (G.pre self.now.stmt) (G.post self.now.stmt) }
        ensures { Reads (spec.tested (expr self.now.fuel) (stmt self.now.fuel) room cursor.old) result cursor.new }
    {
        let (test, depth) = self.nested(cursor, true, 1, room.saturating_sub(1))?;
        Ok((Some(test), depth))
    }

    /// `case` and its test, or the one `default`.
    #[tactic(auto, unfolding(crate::specs::Statements::case_test))]
    fn case_test(
        &self,
        cursor: &mut Cursor<'_>,
        room: usize,
        has_default: bool,
    ) -> Result<(Option<Expr>, usize), ParseStop>
        requires expr { ReadsExpr T.stands self.now.fuel (F.pre self.now.expr) (F.post self.now.expr) }
        requires stmt { ReadsStmt S.stands self.now.fuel (G.pre self.now.stmt) (G.post self.now.stmt) }
        ensures { Reads (spec.case_test (expr self.now.fuel) (stmt self.now.fuel) room has_default cursor.old) result cursor.new }
    {
        match cursor.next() {
            Terminal::Reserved(Keyword::Case) => {
                cursor.take();
                self.tested(cursor, room)
            }
            Terminal::Reserved(Keyword::Default) => {
                if has_default {
                    return Err(cursor.refuse());
                }
                cursor.take();
                Ok((None, 0))
            }
            _ => Err(cursor.refuse()),
        }
    }

    /// With its depth, and whether one of them is `default` up to here.
    #[tactic(auto, unfolding(crate::specs::Statements::one_case))]
    fn one_case(
        &self,
        cursor: &mut Cursor<'_>,
        room: usize,
        has_default: bool,
    ) -> Result<(Case, usize, bool), ParseStop>
        requires expr { ReadsExpr T.stands self.now.fuel (F.pre self.now.expr) (F.post self.now.expr) }
        requires stmt { ReadsStmt S.stands self.now.fuel (G.pre self.now.stmt) (G.post self.now.stmt) }
        ensures { Reads (spec.one_case (expr self.now.fuel) (stmt self.now.fuel) room has_default cursor.old) result cursor.new }
    {
        let (test, test_depth) = self.case_test(cursor, room, has_default)?;
        cursor.expect(Mark::Colon)?;
        let (body, depth) = self.statements(cursor, false, room)?;
        let is_default = test.is_none();
        Ok((
            Case { test, body },
            test_depth.max(depth),
            has_default || is_default,
        ))
    }

    #[tactic(auto, unfolding(crate::specs::Statements::whole_cases, crate::specs::Statements::cases))]
    #[inline(never)]
    fn cases(&self, cursor: &mut Cursor<'_>, room: usize) -> Result<(Items<Case>, usize), ParseStop>
        requires expr { ReadsExpr T.stands self.now.fuel (F.pre self.now.expr) (F.post self.now.expr) }
        requires stmt { ReadsStmt S.stands self.now.fuel (G.pre self.now.stmt) (G.post self.now.stmt) }
        ensures { Reads (spec.whole_cases (expr self.now.fuel) (stmt self.now.fuel) room cursor.old) result cursor.new }
    {
        let mut found = Items::new(self.alloc);
        let mut below: usize = 0;
        let mut has_default = false;
        for _turn in 0..cursor.left() {
            if cursor.eat(Mark::RightBrace) {
                return Ok((found, below));
            }
            let (case, depth, defaults) = self.one_case(cursor, room, has_default)?;
            found.push(case)?;
            below = below.max(depth);
            has_default = defaults;
        }
        Err(cursor.refuse())
    }

    #[tactic(auto, unfolding(crate::specs::Statements::switch_by))]
    #[inline(never)]
    pub fn switch_by(
        &self,
        cursor: &mut Cursor<'_>,
        room: usize,
        line: u32,
    ) -> Result<(Boxed<Stmt>, usize), ParseStop>
        requires expr { ReadsExpr T.stands self.now.fuel (F.pre self.now.expr) (F.post self.now.expr) }
        requires stmt { ReadsStmt S.stands self.now.fuel (G.pre self.now.stmt) (G.post self.now.stmt) }
        ensures { Reads (spec.switch_by (expr self.now.fuel) (stmt self.now.fuel) room line cursor.old) result cursor.new }
    {
        let (value, value_depth) = self.grouped(cursor, room.saturating_sub(1))?;
        cursor.expect(Mark::LeftBrace)?;
        let (cases, depth) = self.cases(cursor, room)?;
        stood(
            self.alloc,
            cursor,
            room,
            line,
            StmtNode::Switch { value, cases },
            value_depth.max(depth),
        )
    }
}
