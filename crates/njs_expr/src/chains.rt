//! Calls, members and indices (ECMA-262 5.1 §11.2).
ghost use Rattle.std.specs.Prelude.{◌≡◌, false, Some};
ghost use Rattle.njs_expr.specs.Descent.{expr, stmt};
ghost use Rattle.njs_expr.specs.Expressions as spec;
ghost use Rattle.njs_expr.specs.Reads.{Reads, ReadsExpr, ReadsStmt};

use crate::cursor::Cursor;
use crate::grammar::Grammar;
use crate::nodes::grown;
use crate::tables::{is_target, links, update_of};
use crate::trees::{ExprTree, StmtTree};
use crate::{ParseStop, Terminal, nodes};
use njs_tree::{Expr, Mark, UpdateOp};
use sqlite_items::Items;
use std::alloc::Global;
use std::marker::PhantomData;

// After `.`.
#[tactic(auto, unfolding(crate::specs::Expressions::member))]
fn member(
    alloc: Global,
    cursor: &mut Cursor<'_>,
    room: usize,
    line: u32,
    object: (Expr, usize),
) -> Result<(Expr, usize), ParseStop>
    ensures { Reads (spec.member room line object cursor.old) result cursor.new }
{
    let name = cursor.word(alloc)?;
    let node = nodes::member(alloc, object.0, name)?;
    grown(cursor, room, line, node, object.1)
}

// With the `++` or `--` that comes next.
fn updated_by(
    alloc: Global,
    cursor: &mut Cursor<'_>,
    room: usize,
    line: u32,
    op: UpdateOp,
    target: (Expr, usize),
) -> Result<(Expr, usize), ParseStop>
    ensures { Reads (spec.updated_by room line target false (Some op) cursor.old) result cursor.new }
{
    if !is_target(&target.0) {
        return Err(cursor.refuse());
    }
    cursor.take();
    let node = nodes::update(alloc, op, false, target.0)?;
    grown(cursor, room, line, node, target.1)
}

/// The `++` or `--` that follows on the same line.
#[tactic(auto, unfolding(crate::specs::Expressions::updated))]
pub fn updated(
    alloc: Global,
    cursor: &mut Cursor<'_>,
    room: usize,
    line: u32,
    target: (Expr, usize),
) -> Result<(Expr, usize), ParseStop>
    ensures { Reads (spec.updated room line target cursor.old) result cursor.new }
{
    if cursor.breaks() {
        return Ok(target);
    }
    match update_of(cursor.next()) {
        Some(op) => updated_by(alloc, cursor, room, line, op, target),
        None => Ok(target),
    }
}

impl<
    T: ExprTree,
    S: StmtTree,
    F: Fn(
        PhantomData<(T, S)>,
        Global,
        &mut Cursor<'_>,
        usize,
        bool,
        usize,
        usize,
    ) -> Result<(T, usize), ParseStop>,
    G: Fn(
        PhantomData<(T, S)>,
        Global,
        &mut Cursor<'_>,
        usize,
        bool,
        usize,
    ) -> Result<(S, usize), ParseStop>,
> Grammar<T, S, F, G> {
    #[tactic(auto, unfolding(crate::specs::Expressions::some_listed, crate::specs::Expressions::listed))]
    #[inline(never)]
    fn listed(
        &self,
        cursor: &mut Cursor<'_>,
        room: usize,
    ) -> Result<(Items<Expr>, usize), ParseStop>
        requires expr { ReadsExpr T.stands self.now.fuel (F.pre self.now.expr) (F.post self.now.expr) }
        ensures { Reads (spec.some_listed (expr self.now.fuel) room cursor.old) result cursor.new }
    {
        let mut found = Items::new(self.alloc);
        let mut below: usize = 0;
        for _turn in 0..cursor.left() {
            let (value, depth) = self.nested(cursor, true, 2, room.saturating_sub(1))?;
            found.push(value)?;
            below = below.max(depth);
            if !cursor.eat(Mark::Comma) {
                cursor.expect(Mark::RightParen)?;
                return Ok((found, below));
            }
        }
        Err(cursor.refuse())
    }

    // After `(`.
    #[tactic(auto, unfolding(crate::specs::Expressions::arguments, crate::specs::Expressions::some_listed))]
    fn arguments(
        &self,
        cursor: &mut Cursor<'_>,
        room: usize,
    ) -> Result<(Items<Expr>, usize), ParseStop>
        requires expr { ReadsExpr T.stands self.now.fuel (F.pre self.now.expr) (F.post self.now.expr) }
        ensures { Reads (spec.arguments (expr self.now.fuel) room cursor.old) result cursor.new }
    {
        if cursor.eat(Mark::RightParen) {
            return Ok((Items::new(self.alloc), 0));
        }
        self.listed(cursor, room)
    }

    // Those of a `new`, which may leave them out.
    #[tactic(auto, unfolding(crate::specs::Expressions::new_arguments))]
    fn new_arguments(
        &self,
        cursor: &mut Cursor<'_>,
        room: usize,
    ) -> Result<(Items<Expr>, usize), ParseStop>
        requires expr { ReadsExpr T.stands self.now.fuel (F.pre self.now.expr) (F.post self.now.expr) }
        ensures { Reads (spec.new_arguments (expr self.now.fuel) room cursor.old) result cursor.new }
    {
        if cursor.eat(Mark::LeftParen) {
            return self.arguments(cursor, room);
        }
        Ok((Items::new(self.alloc), 0))
    }

    #[tactic(auto, unfolding(crate::specs::Expressions::call))]
    fn call(
        &self,
        cursor: &mut Cursor<'_>,
        room: usize,
        line: u32,
        callee: (Expr, usize),
    ) -> Result<(Expr, usize), ParseStop>
        requires expr { ReadsExpr T.stands self.now.fuel (F.pre self.now.expr) (F.post self.now.expr) }
        ensures { Reads (spec.call (expr self.now.fuel) room line callee cursor.old) result cursor.new }
    {
        let (values, depth) = self.arguments(cursor, room)?;
        let node = nodes::call(self.alloc, callee.0, values)?;
        grown(cursor, room, line, node, callee.1.max(depth))
    }

    #[tactic(auto, unfolding(crate::specs::Expressions::index))]
    #[inline(never)]
    fn index(
        &self,
        cursor: &mut Cursor<'_>,
        room: usize,
        line: u32,
        object: (Expr, usize),
    ) -> Result<(Expr, usize), ParseStop>
        requires expr { ReadsExpr T.stands self.now.fuel (F.pre self.now.expr) (F.post self.now.expr) }
        ensures { Reads (spec.index (expr self.now.fuel) room line object cursor.old) result cursor.new }
    {
        let place = self.nested(cursor, true, 1, room.saturating_sub(1))?;
        cursor.expect(Mark::RightBracket)?;
        let node = nodes::index(self.alloc, object.0, place.0)?;
        grown(cursor, room, line, node, object.1.max(place.1))
    }

    // A call, a member or an index, by its first symbol.
    #[tactic(auto, unfolding(crate::specs::Expressions::link))]
    fn link(
        &self,
        cursor: &mut Cursor<'_>,
        room: usize,
        line: u32,
        object: (Expr, usize),
    ) -> Result<(Expr, usize), ParseStop>
        requires expr { ReadsExpr T.stands self.now.fuel (F.pre self.now.expr) (F.post self.now.expr) }
        ensures { Reads (spec.link (expr self.now.fuel) room line object cursor.old) result cursor.new }
    {
        match cursor.next() {
            Terminal::Mark(Mark::LeftParen) => {
                cursor.take();
                self.call(cursor, room, line, object)
            }
            Terminal::Mark(Mark::Dot) => {
                cursor.take();
                member(self.alloc, cursor, room, line, object)
            }
            Terminal::Mark(Mark::LeftBracket) => {
                cursor.take();
                self.index(cursor, room, line, object)
            }
            _ => Err(cursor.refuse()),
        }
    }

    #[tactic(auto, unfolding(crate::specs::Expressions::whole_chain, crate::specs::Expressions::chain))]
    #[inline(never)]
    pub fn chain(
        &self,
        cursor: &mut Cursor<'_>,
        with_calls: bool,
        room: usize,
        line: u32,
        mut object: (Expr, usize),
    ) -> Result<(Expr, usize), ParseStop>
        requires expr { ReadsExpr T.stands self.now.fuel (F.pre self.now.expr) (F.post self.now.expr) }
        ensures { Reads (spec.whole_chain (expr self.now.fuel) with_calls room line object cursor.old) result cursor.new }
    {
        for _turn in 0..cursor.left() {
            if !links(with_calls, cursor.next()) {
                return Ok(object);
            }
            object = self.link(cursor, room, line, object)?;
        }
        Ok(object)
    }

    /// After `new`.
    #[tactic(auto, unfolding(crate::specs::Expressions::newed))]
    #[inline(never)]
    pub fn newed(
        &self,
        cursor: &mut Cursor<'_>,
        with_in: bool,
        room: usize,
        line: u32,
    ) -> Result<(Expr, usize), ParseStop>
        requires expr { ReadsExpr T.stands self.now.fuel (F.pre self.now.expr) (F.post self.now.expr) }
        ensures { Reads (spec.newed (expr self.now.fuel) with_in room line cursor.old) result cursor.new }
    {
        let (callee, above) = self.nested(cursor, with_in, 18, room.saturating_sub(1))?;
        let (values, depth) = self.new_arguments(cursor, room)?;
        let node = nodes::constructed(self.alloc, callee, values)?;
        grown(cursor, room, line, node, above.max(depth))
    }
}
