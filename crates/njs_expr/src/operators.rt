//! Operators (ECMA-262 5.1 §11.3 to §11.14).
ghost use Rattle.std.specs.Prelude.{◌≡◌};
ghost use Rattle.njs_expr.specs.Descent.{expr, stmt};
ghost use Rattle.njs_expr.specs.Expressions as spec;
ghost use Rattle.njs_expr.specs.Reads.{Reads, ReadsExpr, ReadsStmt};
ghost use Rattle.njs_tree.specs.declared.token.Joint.TheVariants as joint;

use crate::chains::updated;
use crate::cursor::Cursor;
use crate::grammar::Grammar;
use crate::nodes::grown;
use crate::tables::{
    binary_level, binds, is_target, joint_of, logical_level, prefix_of, update_of,
};
use crate::trees::{ExprTree, StmtTree};
use crate::{ParseStop, nodes};
use njs_tree::{BinaryOp, Expr, Joint, LogicalOp, Mark, UnaryOp, UpdateOp};
use std::alloc::Global;
use std::marker::PhantomData;

impl<
    T: ExprTree,
    S: StmtTree,
    F: Fn(
        PhantomData<(T, S)>,
        Global,
        &mut Cursor<'_>,
        usize,
        bool,
        usize,
        usize,
    ) -> Result<(T, usize), ParseStop>,
    G: Fn(
        PhantomData<(T, S)>,
        Global,
        &mut Cursor<'_>,
        usize,
        bool,
        usize,
    ) -> Result<(S, usize), ParseStop>,
> Grammar<T, S, F, G> {
    #[tactic(auto, unfolding(crate::specs::Expressions::prefix_update))]
    #[inline(never)]
    fn prefix_update(
        &self,
        cursor: &mut Cursor<'_>,
        with_in: bool,
        room: usize,
        line: u32,
        op: UpdateOp,
    ) -> Result<(Expr, usize), ParseStop>
        requires expr { ReadsExpr T.stands self.now.fuel (F.pre self.now.expr) (F.post self.now.expr) }
        ensures { Reads (spec.prefix_update (expr self.now.fuel) with_in room line op cursor.old) result cursor.new }
    {
        let (target, depth) = self.nested(cursor, with_in, 14, room.saturating_sub(1))?;
        if !is_target(&target) {
            return Err(cursor.refuse());
        }
        let node = nodes::update(self.alloc, op, true, target)?;
        grown(cursor, room, line, node, depth)
    }

    #[tactic(auto, unfolding(crate::specs::Expressions::prefix_unary))]
    #[inline(never)]
    fn prefix_unary(
        &self,
        cursor: &mut Cursor<'_>,
        with_in: bool,
        room: usize,
        line: u32,
        op: UnaryOp,
    ) -> Result<(Expr, usize), ParseStop>
        requires expr { ReadsExpr T.stands self.now.fuel (F.pre self.now.expr) (F.post self.now.expr) }
        ensures { Reads (spec.prefix_unary (expr self.now.fuel) with_in room line op cursor.old) result cursor.new }
    {
        let (value, depth) = self.nested(cursor, with_in, 14, room.saturating_sub(1))?;
        let node = nodes::unary(self.alloc, op, value)?;
        grown(cursor, room, line, node, depth)
    }

    #[tactic(auto, unfolding(crate::specs::Expressions::conditional))]
    #[inline(never)]
    fn conditional(
        &self,
        cursor: &mut Cursor<'_>,
        with_in: bool,
        room: usize,
        line: u32,
        left: (Expr, usize),
    ) -> Result<(Expr, usize), ParseStop>
        requires expr { ReadsExpr T.stands self.now.fuel (F.pre self.now.expr) (F.post self.now.expr) }
        ensures { Reads (spec.conditional (expr self.now.fuel) with_in room line left cursor.old) result cursor.new }
    {
        let middle = self.nested(cursor, true, 2, room.saturating_sub(1))?;
        cursor.expect(Mark::Colon)?;
        let right = self.nested(cursor, with_in, 2, room.saturating_sub(1))?;
        let node = nodes::conditional(self.alloc, left.0, middle.0, right.0)?;
        grown(cursor, room, line, node, left.1.max(middle.1.max(right.1)))
    }

    #[tactic(auto, unfolding(crate::specs::Expressions::comma))]
    #[inline(never)]
    fn comma(
        &self,
        cursor: &mut Cursor<'_>,
        with_in: bool,
        room: usize,
        line: u32,
        left: (Expr, usize),
    ) -> Result<(Expr, usize), ParseStop>
        requires expr { ReadsExpr T.stands self.now.fuel (F.pre self.now.expr) (F.post self.now.expr) }
        ensures { Reads (spec.comma (expr self.now.fuel) with_in room line left cursor.old) result cursor.new }
    {
        let (right, depth) = self.nested(cursor, with_in, 2, room.saturating_sub(1))?;
        let node = nodes::comma(self.alloc, left.0, right)?;
        grown(cursor, room, line, node, left.1.max(depth))
    }

    #[tactic(auto, unfolding(crate::specs::Expressions::assigned))]
    #[inline(never)]
    fn assigned(
        &self,
        cursor: &mut Cursor<'_>,
        with_in: bool,
        room: usize,
        line: u32,
        op: Option<BinaryOp>,
        left: (Expr, usize),
    ) -> Result<(Expr, usize), ParseStop>
        requires expr { ReadsExpr T.stands self.now.fuel (F.pre self.now.expr) (F.post self.now.expr) }
        ensures { Reads (spec.assigned (expr self.now.fuel) with_in room line op left cursor.old) result cursor.new }
    {
        let (right, depth) = self.nested(cursor, with_in, 2, room.saturating_sub(1))?;
        let node = nodes::assign(self.alloc, op, left.0, right)?;
        grown(cursor, room, line, node, left.1.max(depth))
    }

    #[tactic(auto, unfolding(crate::specs::Expressions::logical_joined))]
    #[inline(never)]
    fn logical_joined(
        &self,
        cursor: &mut Cursor<'_>,
        with_in: bool,
        room: usize,
        line: u32,
        op: LogicalOp,
        left: (Expr, usize),
    ) -> Result<(Expr, usize), ParseStop>
        requires expr { ReadsExpr T.stands self.now.fuel (F.pre self.now.expr) (F.post self.now.expr) }
        ensures { Reads (spec.logical_joined (expr self.now.fuel) with_in room line op left cursor.old) result cursor.new }
    {
        let (right, depth) = self.nested(
            cursor,
            with_in,
            logical_level(op) + 1,
            room.saturating_sub(1),
        )?;
        let node = nodes::logical(self.alloc, op, left.0, right)?;
        grown(cursor, room, line, node, left.1.max(depth))
    }

    #[tactic(auto, unfolding(crate::specs::Expressions::binary_joined))]
    #[inline(never)]
    fn binary_joined(
        &self,
        cursor: &mut Cursor<'_>,
        with_in: bool,
        room: usize,
        line: u32,
        op: BinaryOp,
        left: (Expr, usize),
    ) -> Result<(Expr, usize), ParseStop>
        requires expr { ReadsExpr T.stands self.now.fuel (F.pre self.now.expr) (F.post self.now.expr) }
        ensures { Reads (spec.binary_joined (expr self.now.fuel) with_in room line op left cursor.old) result cursor.new }
    {
        let (right, depth) = self.nested(
            cursor,
            with_in,
            binary_level(op) + 1,
            room.saturating_sub(1),
        )?;
        let node = nodes::binary(self.alloc, op, left.0, right)?;
        grown(cursor, room, line, node, left.1.max(depth))
    }

    fn assigned_to(
        &self,
        cursor: &mut Cursor<'_>,
        with_in: bool,
        room: usize,
        line: u32,
        op: Option<BinaryOp>,
        left: (Expr, usize),
    ) -> Result<(Expr, usize), ParseStop>
        requires expr { ReadsExpr T.stands self.now.fuel (F.pre self.now.expr) (F.post self.now.expr) }
        ensures { Reads (spec.joined_by (expr self.now.fuel) with_in room line left (joint.Assign op) cursor.old) result cursor.new }
    {
        if !is_target(&left.0) {
            return Err(cursor.refuse());
        }
        cursor.take();
        self.assigned(cursor, with_in, room, line, op, left)
    }

    // An operator and what stands on its right.
    #[tactic(auto, unfolding(crate::specs::Expressions::joined))]
    fn joined(
        &self,
        cursor: &mut Cursor<'_>,
        with_in: bool,
        room: usize,
        line: u32,
        left: (Expr, usize),
    ) -> Result<(Expr, usize), ParseStop>
        requires expr { ReadsExpr T.stands self.now.fuel (F.pre self.now.expr) (F.post self.now.expr) }
        ensures { Reads (spec.joined (expr self.now.fuel) with_in room line left cursor.old) result cursor.new }
    {
        match joint_of(with_in, cursor.next()) {
            Joint::Comma => {
                cursor.take();
                self.comma(cursor, with_in, room, line, left)
            }
            Joint::Assign(op) => self.assigned_to(cursor, with_in, room, line, op, left),
            Joint::Question => {
                cursor.take();
                self.conditional(cursor, with_in, room, line, left)
            }
            Joint::Logical(op) => {
                cursor.take();
                self.logical_joined(cursor, with_in, room, line, op, left)
            }
            Joint::Binary(op) => {
                cursor.take();
                self.binary_joined(cursor, with_in, room, line, op, left)
            }
            Joint::None => Err(cursor.refuse()),
        }
    }

    #[tactic(auto, unfolding(crate::specs::Expressions::whole_climb, crate::specs::Expressions::climb))]
    #[inline(never)]
    fn climb(
        &self,
        cursor: &mut Cursor<'_>,
        with_in: bool,
        least: usize,
        room: usize,
        line: u32,
        mut left: (Expr, usize),
    ) -> Result<(Expr, usize), ParseStop>
        requires expr { ReadsExpr T.stands self.now.fuel (F.pre self.now.expr) (F.post self.now.expr) }
        ensures { Reads (spec.whole_climb (expr self.now.fuel) with_in least room line left cursor.old) result cursor.new }
    {
        for _turn in 0..cursor.left() {
            if binds(joint_of(with_in, cursor.next())) < least {
                return Ok(left);
            }
            left = self.joined(cursor, with_in, room, line, left)?;
        }
        Ok(left)
    }

    #[tactic(auto, unfolding(crate::specs::Expressions::chained, crate::specs::Expressions::whole_chain))]
    fn chained(
        &self,
        cursor: &mut Cursor<'_>,
        with_in: bool,
        with_calls: bool,
        room: usize,
        line: u32,
    ) -> Result<(Expr, usize), ParseStop>
        requires expr { ReadsExpr T.stands self.now.fuel (F.pre self.now.expr) (F.post self.now.expr) }
        requires stmt { ReadsStmt S.stands self.now.fuel (G.pre self.now.stmt) (G.post self.now.stmt) }
        ensures { Reads (spec.chained (expr self.now.fuel) (stmt self.now.fuel) with_in with_calls room line cursor.old) result cursor.new }
    {
        let first = self.primary(cursor, with_in, room, line)?;
        self.chain(cursor, with_calls, room, line, first)
    }

    #[tactic(auto, unfolding(crate::specs::Expressions::postfix))]
    fn postfix(
        &self,
        cursor: &mut Cursor<'_>,
        with_in: bool,
        room: usize,
        line: u32,
    ) -> Result<(Expr, usize), ParseStop>
        requires expr { ReadsExpr T.stands self.now.fuel (F.pre self.now.expr) (F.post self.now.expr) }
        requires stmt { ReadsStmt S.stands self.now.fuel (G.pre self.now.stmt) (G.post self.now.stmt) }
        ensures { Reads (spec.postfix (expr self.now.fuel) (stmt self.now.fuel) with_in room line cursor.old) result cursor.new }
    {
        let target = self.chained(cursor, with_in, true, room, line)?;
        updated(self.alloc, cursor, room, line, target)
    }

    #[tactic(auto, unfolding(crate::specs::Expressions::operand))]
    fn operand(
        &self,
        cursor: &mut Cursor<'_>,
        with_in: bool,
        room: usize,
        line: u32,
    ) -> Result<(Expr, usize), ParseStop>
        requires expr { ReadsExpr T.stands self.now.fuel (F.pre self.now.expr) (F.post self.now.expr) }
        requires stmt { ReadsStmt S.stands self.now.fuel (G.pre self.now.stmt) (G.post self.now.stmt) }
        ensures { Reads (spec.operand (expr self.now.fuel) (stmt self.now.fuel) with_in room line cursor.old) result cursor.new }
    {
        let first = cursor.next();
        if let Some(op) = prefix_of(first) {
            cursor.take();
            return self.prefix_unary(cursor, with_in, room, line, op);
        }
        if let Some(op) = update_of(first) {
            cursor.take();
            return self.prefix_update(cursor, with_in, room, line, op);
        }
        self.postfix(cursor, with_in, room, line)
    }

    #[tactic(auto, unfolding(crate::specs::Expressions::operators, crate::specs::Expressions::whole_climb))]
    fn operators(
        &self,
        cursor: &mut Cursor<'_>,
        with_in: bool,
        least: usize,
        room: usize,
        line: u32,
    ) -> Result<(Expr, usize), ParseStop>
        requires expr { ReadsExpr T.stands self.now.fuel (F.pre self.now.expr) (F.post self.now.expr) }
        requires stmt { ReadsStmt S.stands self.now.fuel (G.pre self.now.stmt) (G.post self.now.stmt) }
        ensures { Reads (spec.operators (expr self.now.fuel) (stmt self.now.fuel) with_in least room line cursor.old) result cursor.new }
    {
        let left = self.operand(cursor, with_in, room, line)?;
        self.climb(cursor, with_in, least, room, line, left)
    }

    /// An expression whose operators bind at least as tight as `least`; above the level of operators before one value a chain without calls.
    #[tactic(auto, unfolding(crate::specs::Expressions::level_of))]
    pub fn level(
        &self,
        cursor: &mut Cursor<'_>,
        with_in: bool,
        least: usize,
        room: usize,
    ) -> Result<(Expr, usize), ParseStop>
        requires expr { ReadsExpr T.stands self.now.fuel (F.pre self.now.expr) (F.post self.now.expr) }
        requires stmt { ReadsStmt S.stands self.now.fuel (G.pre self.now.stmt) (G.post self.now.stmt) }
        ensures { Reads (spec.level_of (expr self.now.fuel) (stmt self.now.fuel) with_in least room cursor.old) result cursor.new }
    {
        let line = cursor.line();
        if least > 14 {
            return self.chained(cursor, with_in, false, room, line);
        }
        self.operators(cursor, with_in, least, room, line)
    }
}
