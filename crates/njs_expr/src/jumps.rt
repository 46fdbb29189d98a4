//! `continue`, `break`, `return` and `throw` (ECMA-262 5.1 §12.7, §12.8, §12.9, §12.13).
ghost use Rattle.std.specs.Prelude.{◌≡◌};
ghost use Rattle.njs_expr.specs.Statements as spec;
ghost use Rattle.njs_expr.specs.Descent.{expr};
ghost use Rattle.njs_expr.specs.Reads.{Reads, ReadsExpr};

use crate::cursor::Cursor;
use crate::grammar::Grammar;
use crate::nodes::stood;
use crate::tables::may_miss;
use crate::trees::{ExprTree, StmtTree};
use crate::{ParseStop, Terminal};
use njs_text::Text;
use njs_tree::{Expr, Mark, Stmt, StmtNode};
use sqlite_items::Boxed;
use std::alloc::Global;
use std::marker::PhantomData;

/// The name that follows on the same line.
#[tactic(auto, unfolding(crate::specs::Statements::optional_label))]
fn optional_label(alloc: Global, cursor: &mut Cursor<'_>) -> Result<Option<Text>, ParseStop>
    ensures { Reads (spec.optional_label cursor.old) result cursor.new }
{
    match cursor.next() {
        Terminal::Name => {
            if cursor.breaks() {
                return Ok(None);
            }
            Ok(Some(cursor.name(alloc)?))
        }
        _ => Ok(None),
    }
}

#[tactic(auto, unfolding(crate::specs::Statements::continue_by))]
#[inline(never)]
pub fn continue_by(
    alloc: Global,
    cursor: &mut Cursor<'_>,
    room: usize,
    line: u32,
) -> Result<(Boxed<Stmt>, usize), ParseStop>
    ensures { Reads (spec.continue_by room line cursor.old) result cursor.new }
{
    let label = optional_label(alloc, cursor)?;
    cursor.semicolon()?;
    stood(alloc, cursor, room, line, StmtNode::Continue(label), 0)
}

#[tactic(auto, unfolding(crate::specs::Statements::break_by))]
#[inline(never)]
pub fn break_by(
    alloc: Global,
    cursor: &mut Cursor<'_>,
    room: usize,
    line: u32,
) -> Result<(Boxed<Stmt>, usize), ParseStop>
    ensures { Reads (spec.break_by room line cursor.old) result cursor.new }
{
    let label = optional_label(alloc, cursor)?;
    cursor.semicolon()?;
    stood(alloc, cursor, room, line, StmtNode::Break(label), 0)
}

/// Whether a statement ends here.
#[tactic(auto, unfolding(crate::specs::Statements::ends_here))]
fn ends_here(cursor: &Cursor<'_>) -> bool
    ensures { result ≡ spec.ends_here cursor.now }
{
    cursor.sees(Mark::Semicolon) || may_miss(cursor.next(), cursor.breaks())
}

impl<
    T: ExprTree,
    S: StmtTree,
    F: Fn(
        PhantomData<(T, S)>,
        Global,
        &mut Cursor<'_>,
        usize,
        bool,
        usize,
        usize,
    ) -> Result<(T, usize), ParseStop>,
    G: Fn(
        PhantomData<(T, S)>,
        Global,
        &mut Cursor<'_>,
        usize,
        bool,
        usize,
    ) -> Result<(S, usize), ParseStop>,
> Grammar<T, S, F, G> {
    /// An expression as a statement (ECMA-262 5.1 §12.4).
    #[tactic(auto, unfolding(crate::specs::Statements::expr_by))]
    #[inline(never)]
    pub fn expression_by(
        &self,
        cursor: &mut Cursor<'_>,
        room: usize,
        line: u32,
    ) -> Result<(Boxed<Stmt>, usize), ParseStop>
        requires expr { ReadsExpr T.stands self.now.fuel (F.pre self.now.expr) (F.post self.now.expr) }
        ensures { Reads (spec.expr_by (expr self.now.fuel) room line cursor.old) result cursor.new }
    {
        let (value, depth) = self.nested(cursor, true, 1, room.saturating_sub(1))?;
        cursor.semicolon()?;
        stood(self.alloc, cursor, room, line, StmtNode::Expr(value), depth)
    }

    #[tactic(auto, unfolding(crate::specs::Statements::returned))]
    #[inline(never)]
    fn returned(
        &self,
        cursor: &mut Cursor<'_>,
        room: usize,
        line: u32,
    ) -> Result<(Boxed<Stmt>, usize), ParseStop>
        ensures { Reads (spec.returned (expr self.now.fuel) room line cursor.old) result cursor.new }
    {
        cursor.semicolon()?;
        stood(self.alloc, cursor, room, line, StmtNode::Return(None), 0)
    }

    #[tactic(auto, unfolding(crate::specs::Statements::returned_value))]
    #[inline(never)]
    fn returned_value(
        &self,
        cursor: &mut Cursor<'_>,
        room: usize,
        line: u32,
    ) -> Result<(Boxed<Stmt>, usize), ParseStop>
        requires expr { ReadsExpr T.stands self.now.fuel (F.pre self.now.expr) (F.post self.now.expr) }
        ensures { Reads (spec.returned_value (expr self.now.fuel) room line cursor.old) result cursor.new }
    {
        let (value, depth) = self.nested(cursor, true, 1, room.saturating_sub(1))?;
        cursor.semicolon()?;
        stood(
            self.alloc,
            cursor,
            room,
            line,
            StmtNode::Return(Some(value)),
            depth,
        )
    }

    #[tactic(auto, unfolding(crate::specs::Statements::return_by))]
    pub fn return_by(
        &self,
        cursor: &mut Cursor<'_>,
        room: usize,
        line: u32,
    ) -> Result<(Boxed<Stmt>, usize), ParseStop>
        requires expr { ReadsExpr T.stands self.now.fuel (F.pre self.now.expr) (F.post self.now.expr) }
        ensures { Reads (spec.return_by (expr self.now.fuel) room line cursor.old) result cursor.new }
    {
        if ends_here(cursor) {
            self.returned(cursor, room, line)
        } else {
            self.returned_value(cursor, room, line)
        }
    }

    #[tactic(auto, unfolding(crate::specs::Statements::thrown))]
    #[inline(never)]
    fn thrown(
        &self,
        cursor: &mut Cursor<'_>,
        room: usize,
        line: u32,
    ) -> Result<(Boxed<Stmt>, usize), ParseStop>
        requires expr { ReadsExpr T.stands self.now.fuel (F.pre self.now.expr) (F.post self.now.expr) }
        ensures { Reads (spec.thrown (expr self.now.fuel) room line cursor.old) result cursor.new }
    {
        let (value, depth) = self.nested(cursor, true, 1, room.saturating_sub(1))?;
        cursor.semicolon()?;
        stood(
            self.alloc,
            cursor,
            room,
            line,
            StmtNode::Throw(value),
            depth,
        )
    }

    #[tactic(auto, unfolding(crate::specs::Statements::throw_by))]
    pub fn throw_by(
        &self,
        cursor: &mut Cursor<'_>,
        room: usize,
        line: u32,
    ) -> Result<(Boxed<Stmt>, usize), ParseStop>
        requires expr { ReadsExpr T.stands self.now.fuel (F.pre self.now.expr) (F.post self.now.expr) }
        ensures { Reads (spec.throw_by (expr self.now.fuel) room line cursor.old) result cursor.new }
    {
        if cursor.breaks() {
            return Err(cursor.refuse());
        }
        self.thrown(cursor, room, line)
    }
}
