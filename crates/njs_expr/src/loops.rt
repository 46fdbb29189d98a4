//! `do`, `while` and `for` (ECMA-262 5.1 §12.6).
ghost use Rattle.std.specs.Prelude.{◌≡◌, false, IfOk};
ghost use Rattle.njs_expr.specs.Heads as heads;
ghost use Rattle.njs_expr.specs.Leads as leads;
ghost use Rattle.njs_expr.specs.Readers as readers;
ghost use Rattle.njs_tree.specs.declared.tree.ForFirst.TheVariants as for_first;
ghost use Rattle.njs_tree.specs.declared.tree.ForInHead.TheVariants as for_in_head;
ghost use Rattle.njs_tree.specs.declared.tree.StmtNode.TheVariants as step;
ghost use Rattle.njs_expr.specs.Statements as spec;
ghost use Rattle.njs_expr.specs.Descent.{expr, stmt};
ghost use Rattle.njs_expr.specs.Reads.{Reads, ReadsExpr, ReadsStmt};

use crate::cursor::Cursor;
use crate::grammar::Grammar;
use crate::leads::{Lead, lead_of};
use crate::nodes::stood;
use crate::tables::{is_target, sees_word};
use crate::trees::{ExprTree, StmtTree};
use crate::{ParseStop, Terminal};
use njs_tree::{Expr, ForFirst, ForInHead, Keyword, Mark, Stmt, StmtNode};
use sqlite_items::Boxed;
use std::alloc::{AllocError, Global};
use std::marker::PhantomData;

/// A name, and then `in`.
fn begins_for_in(first: Terminal, second: Terminal) -> bool
    ensures { result ≡ spec.begins_for_in first second }
{
    match first {
        Terminal::Name => sees_word(Keyword::In, second),
        _ => false,
    }
}

fn unboxed<A>(value: Option<Boxed<A>>) -> Option<A>
    ensures { result ≡ value }
{
    match value {
        Some(value) => Some(value.into_inner()),
        None => None,
    }
}

// A `for`, made in a frame of its own, which no nested statement waits on.
#[inline(never)]
fn stood_for(
    alloc: Global,
    cursor: &mut Cursor<'_>,
    room: usize,
    line: u32,
    first: Option<Boxed<ForFirst>>,
    test: Option<Boxed<Expr>>,
    update: Option<Boxed<Expr>>,
    body: Boxed<Stmt>,
    below: usize,
) -> Result<(Boxed<Stmt>, usize), ParseStop>
    ensures { Reads (readers.stood room line (step.For first test update body) below cursor.old) result cursor.new }
{
    let node = StmtNode::For {
        first: unboxed(first),
        test: unboxed(test),
        update: unboxed(update),
        body,
    };
    stood(alloc, cursor, room, line, node, below)
}

// A `for` with `in`.
#[inline(never)]
fn stood_for_in(
    alloc: Global,
    cursor: &mut Cursor<'_>,
    room: usize,
    line: u32,
    head: Boxed<ForInHead>,
    value: Boxed<Expr>,
    body: Boxed<Stmt>,
    below: usize,
) -> Result<(Boxed<Stmt>, usize), ParseStop>
    ensures { Reads (readers.stood room line (step.ForIn head value body) below cursor.old) result cursor.new }
{
    let node = StmtNode::ForIn {
        head: head.into_inner(),
        value: value.into_inner(),
        body,
    };
    stood(alloc, cursor, room, line, node, below)
}

// The expression that stands first in a head.
#[inline(never)]
fn first_value(alloc: Global, value: Boxed<Expr>) -> Result<Boxed<ForFirst>, AllocError>
    ensures { IfOk result (λ f. f ≡ for_first.Expr value) }
{
    Boxed::new(alloc, ForFirst::Expr(value.into_inner()))
}

// The target that stands before the `in`.
#[inline(never)]
fn target_head(alloc: Global, target: Boxed<Expr>) -> Result<Boxed<ForInHead>, AllocError>
    ensures { IfOk result (λ h. h ≡ for_in_head.Target target) }
{
    Boxed::new(alloc, ForInHead::Target(target.into_inner()))
}

impl<
    T: ExprTree,
    S: StmtTree,
    F: Fn(
        PhantomData<(T, S)>,
        Global,
        &mut Cursor<'_>,
        usize,
        bool,
        usize,
        usize,
    ) -> Result<(T, usize), ParseStop>,
    G: Fn(
        PhantomData<(T, S)>,
        Global,
        &mut Cursor<'_>,
        usize,
        bool,
        usize,
    ) -> Result<(S, usize), ParseStop>,
> Grammar<T, S, F, G> {
    #[tactic(auto, unfolding(crate::specs::Statements::do_by))]
    #[inline(never)]
    pub fn do_by(
        &self,
        cursor: &mut Cursor<'_>,
        room: usize,
        line: u32,
    ) -> Result<(Boxed<Stmt>, usize), ParseStop>
        requires expr { ReadsExpr T.stands self.now.fuel (F.pre self.now.expr) (F.post self.now.expr) }
        requires stmt { ReadsStmt S.stands self.now.fuel (G.pre self.now.stmt) (G.post self.now.stmt) }
        ensures { Reads (spec.do_by (expr self.now.fuel) (stmt self.now.fuel) room line cursor.old) result cursor.new }
    {
        let (body, body_depth) = self.body(cursor, room.saturating_sub(1))?;
        cursor.expect_word(Keyword::While)?;
        let (test, depth) = self.grouped(cursor, room.saturating_sub(1))?;
        cursor.semicolon()?;
        stood(
            self.alloc,
            cursor,
            room,
            line,
            StmtNode::Do { body, test },
            body_depth.max(depth),
        )
    }

    #[tactic(auto, unfolding(crate::specs::Statements::while_by))]
    #[inline(never)]
    pub fn while_by(
        &self,
        cursor: &mut Cursor<'_>,
        room: usize,
        line: u32,
    ) -> Result<(Boxed<Stmt>, usize), ParseStop>
        requires expr { ReadsExpr T.stands self.now.fuel (F.pre self.now.expr) (F.post self.now.expr) }
        requires stmt { ReadsStmt S.stands self.now.fuel (G.pre self.now.stmt) (G.post self.now.stmt) }
        ensures { Reads (spec.while_by (expr self.now.fuel) (stmt self.now.fuel) room line cursor.old) result cursor.new }
    {
        let (test, test_depth) = self.grouped(cursor, room.saturating_sub(1))?;
        let (body, depth) = self.body(cursor, room.saturating_sub(1))?;
        stood(
            self.alloc,
            cursor,
            room,
            line,
            StmtNode::While { test, body },
            test_depth.max(depth),
        )
    }

    /// From the statement behind the head on.
    #[tactic(auto, unfolding(crate::specs::Heads::for_body))]
    fn for_body(
        &self,
        cursor: &mut Cursor<'_>,
        room: usize,
        line: u32,
        first: (Option<Boxed<ForFirst>>, usize),
        test: (Option<Boxed<Expr>>, usize),
        update: (Option<Boxed<Expr>>, usize),
    ) -> Result<(Boxed<Stmt>, usize), ParseStop>
        requires stmt { ReadsStmt S.stands self.now.fuel (G.pre self.now.stmt) (G.post self.now.stmt) }
        ensures { Reads (heads.for_body (stmt self.now.fuel) room line first.0 first.1 test update cursor.old) result cursor.new }
    {
        let (first, first_depth) = first;
        let (test, test_depth) = test;
        let (update, update_depth) = update;
        let (body, depth) = self.body(cursor, room.saturating_sub(1))?;
        let below = first_depth.max(test_depth.max(update_depth.max(depth)));
        stood_for(
            self.alloc, cursor, room, line, first, test, update, body, below,
        )
    }

    /// From the update of the head on.
    #[tactic(auto, unfolding(crate::specs::Heads::for_update))]
    fn for_update(
        &self,
        cursor: &mut Cursor<'_>,
        room: usize,
        line: u32,
        first: (Option<Boxed<ForFirst>>, usize),
        test: (Option<Boxed<Expr>>, usize),
    ) -> Result<(Boxed<Stmt>, usize), ParseStop>
        requires expr { ReadsExpr T.stands self.now.fuel (F.pre self.now.expr) (F.post self.now.expr) }
        requires stmt { ReadsStmt S.stands self.now.fuel (G.pre self.now.stmt) (G.post self.now.stmt) }
        ensures { Reads (heads.for_update (expr self.now.fuel) (stmt self.now.fuel) room line first.0 first.1 test cursor.old) result cursor.new }
    {
        let update = self.optional(cursor, room.saturating_sub(1), Mark::RightParen)?;
        self.for_body(cursor, room, line, first, test, update)
    }

    /// From the first semicolon of the head on.
    #[tactic(auto, unfolding(crate::specs::Statements::for_rest, crate::specs::Heads::for_update, crate::specs::Heads::for_body))]
    #[inline(never)]
    fn for_rest(
        &self,
        cursor: &mut Cursor<'_>,
        room: usize,
        line: u32,
        first: Option<Boxed<ForFirst>>,
        below: usize,
    ) -> Result<(Boxed<Stmt>, usize), ParseStop>
        requires expr { ReadsExpr T.stands self.now.fuel (F.pre self.now.expr) (F.post self.now.expr) }
        requires stmt { ReadsStmt S.stands self.now.fuel (G.pre self.now.stmt) (G.post self.now.stmt) }
        ensures { Reads (spec.for_rest (expr self.now.fuel) (stmt self.now.fuel) room line first below cursor.old) result cursor.new }
    {
        cursor.expect(Mark::Semicolon)?;
        let test = self.optional(cursor, room.saturating_sub(1), Mark::Semicolon)?;
        self.for_update(cursor, room, line, (first, below), test)
    }

    /// From the statement behind the head with `in` on.
    #[tactic(auto, unfolding(crate::specs::Heads::for_in_body))]
    fn for_in_body(
        &self,
        cursor: &mut Cursor<'_>,
        room: usize,
        line: u32,
        head: (Boxed<ForInHead>, usize),
        value: (Boxed<Expr>, usize),
    ) -> Result<(Boxed<Stmt>, usize), ParseStop>
        requires stmt { ReadsStmt S.stands self.now.fuel (G.pre self.now.stmt) (G.post self.now.stmt) }
        ensures { Reads (heads.for_in_body (stmt self.now.fuel) room line head.0 head.1 value cursor.old) result cursor.new }
    {
        let (head, head_depth) = head;
        let (value, value_depth) = value;
        let (body, depth) = self.body(cursor, room.saturating_sub(1))?;
        let below = head_depth.max(value_depth.max(depth));
        stood_for_in(self.alloc, cursor, room, line, head, value, body, below)
    }

    /// From the closing parenthesis of the head on.
    #[tactic(auto, unfolding(crate::specs::Heads::for_in_close))]
    fn for_in_close(
        &self,
        cursor: &mut Cursor<'_>,
        room: usize,
        line: u32,
        head: (Boxed<ForInHead>, usize),
        value: (Boxed<Expr>, usize),
    ) -> Result<(Boxed<Stmt>, usize), ParseStop>
        requires stmt { ReadsStmt S.stands self.now.fuel (G.pre self.now.stmt) (G.post self.now.stmt) }
        ensures { Reads (heads.for_in_close (stmt self.now.fuel) room line head.0 head.1 value cursor.old) result cursor.new }
    {
        cursor.expect(Mark::RightParen)?;
        self.for_in_body(cursor, room, line, head, value)
    }

    /// From the `in` of the head on.
    #[tactic(auto, unfolding(crate::specs::Statements::for_in_rest, crate::specs::Heads::for_in_close, crate::specs::Heads::for_in_body))]
    #[inline(never)]
    fn for_in_rest(
        &self,
        cursor: &mut Cursor<'_>,
        room: usize,
        line: u32,
        head: Boxed<ForInHead>,
        below: usize,
    ) -> Result<(Boxed<Stmt>, usize), ParseStop>
        requires expr { ReadsExpr T.stands self.now.fuel (F.pre self.now.expr) (F.post self.now.expr) }
        requires stmt { ReadsStmt S.stands self.now.fuel (G.pre self.now.stmt) (G.post self.now.stmt) }
        ensures { Reads (spec.for_in_rest (expr self.now.fuel) (stmt self.now.fuel) room line head below cursor.old) result cursor.new }
    {
        cursor.expect_word(Keyword::In)?;
        let value = self.boxed(cursor, true, room.saturating_sub(1))?;
        self.for_in_close(cursor, room, line, (head, below), value)
    }

    #[tactic(auto, unfolding(crate::specs::Statements::for_in_var))]
    #[inline(never)]
    fn for_in_var(
        &self,
        cursor: &mut Cursor<'_>,
        room: usize,
        line: u32,
    ) -> Result<(Boxed<Stmt>, usize), ParseStop>
        requires expr { ReadsExpr T.stands self.now.fuel (F.pre self.now.expr) (F.post self.now.expr) }
        requires stmt { ReadsStmt S.stands self.now.fuel (G.pre self.now.stmt) (G.post self.now.stmt) }
        ensures { Reads (spec.for_in_var (expr self.now.fuel) (stmt self.now.fuel) room line cursor.old) result cursor.new }
    {
        let name = cursor.name(self.alloc)?;
        let head = Boxed::new(self.alloc, ForInHead::Var(name))?;
        self.for_in_rest(cursor, room, line, head, 0)
    }

    #[tactic(auto, unfolding(crate::specs::Statements::for_plain_var))]
    #[inline(never)]
    fn for_plain_var(
        &self,
        cursor: &mut Cursor<'_>,
        room: usize,
        line: u32,
    ) -> Result<(Boxed<Stmt>, usize), ParseStop>
        requires expr { ReadsExpr T.stands self.now.fuel (F.pre self.now.expr) (F.post self.now.expr) }
        requires stmt { ReadsStmt S.stands self.now.fuel (G.pre self.now.stmt) (G.post self.now.stmt) }
        ensures { Reads (spec.for_plain_var (expr self.now.fuel) (stmt self.now.fuel) room line cursor.old) result cursor.new }
    {
        let (variables, depth) = self.declarators(cursor, false, room.saturating_sub(1))?;
        let first = Boxed::new(self.alloc, ForFirst::Var(variables))?;
        self.for_rest(cursor, room, line, Some(first), depth)
    }

    /// After the `var` of the head.
    #[tactic(auto, unfolding(crate::specs::Statements::for_var))]
    fn for_var(
        &self,
        cursor: &mut Cursor<'_>,
        room: usize,
        line: u32,
    ) -> Result<(Boxed<Stmt>, usize), ParseStop>
        requires expr { ReadsExpr T.stands self.now.fuel (F.pre self.now.expr) (F.post self.now.expr) }
        requires stmt { ReadsStmt S.stands self.now.fuel (G.pre self.now.stmt) (G.post self.now.stmt) }
        ensures { Reads (spec.for_var (expr self.now.fuel) (stmt self.now.fuel) room line cursor.old) result cursor.new }
    {
        if begins_for_in(cursor.next(), cursor.second()) {
            self.for_in_var(cursor, room, line)
        } else {
            self.for_plain_var(cursor, room, line)
        }
    }

    #[tactic(auto, unfolding(crate::specs::Statements::for_in_target))]
    fn for_in_target(
        &self,
        cursor: &mut Cursor<'_>,
        room: usize,
        line: u32,
        target: (Boxed<Expr>, usize),
    ) -> Result<(Boxed<Stmt>, usize), ParseStop>
        requires expr { ReadsExpr T.stands self.now.fuel (F.pre self.now.expr) (F.post self.now.expr) }
        requires stmt { ReadsStmt S.stands self.now.fuel (G.pre self.now.stmt) (G.post self.now.stmt) }
        ensures { Reads (spec.for_in_target (expr self.now.fuel) (stmt self.now.fuel) room line target cursor.old) result cursor.new }
    {
        let (target, depth) = target;
        if !is_target(target.get()) {
            return Err(cursor.refuse());
        }
        let head = target_head(self.alloc, target)?;
        self.for_in_rest(cursor, room, line, head, depth)
    }

    #[tactic(auto, unfolding(crate::specs::Statements::for_expr))]
    #[inline(never)]
    fn for_expr(
        &self,
        cursor: &mut Cursor<'_>,
        room: usize,
        line: u32,
    ) -> Result<(Boxed<Stmt>, usize), ParseStop>
        requires expr { ReadsExpr T.stands self.now.fuel (F.pre self.now.expr) (F.post self.now.expr) }
        requires stmt { ReadsStmt S.stands self.now.fuel (G.pre self.now.stmt) (G.post self.now.stmt) }
        ensures { Reads (spec.for_expr (expr self.now.fuel) (stmt self.now.fuel) room line cursor.old) result cursor.new }
    {
        let first = self.boxed(cursor, false, room.saturating_sub(1))?;
        if cursor.sees_word(Keyword::In) {
            return self.for_in_target(cursor, room, line, first);
        }
        let (first, depth) = first;
        let first = first_value(self.alloc, first)?;
        self.for_rest(cursor, room, line, Some(first), depth)
    }

    // The head of a `for`, and what stands behind it, by how it begins.
    fn head_by(
        &self,
        cursor: &mut Cursor<'_>,
        room: usize,
        line: u32,
        lead: Lead,
    ) -> Result<(Boxed<Stmt>, usize), ParseStop>
        requires expr { ReadsExpr T.stands self.now.fuel (F.pre self.now.expr) (F.post self.now.expr) }
        requires stmt { ReadsStmt S.stands self.now.fuel (G.pre self.now.stmt) (G.post self.now.stmt) }
        ensures { Reads (leads.head_by (expr self.now.fuel) (stmt self.now.fuel) room line lead cursor.old) result cursor.new }
    {
        match lead {
            Lead::Empty => self.for_rest(cursor, room, line, None, 0),
            Lead::Var => {
                cursor.take();
                self.for_var(cursor, room, line)
            }
            _ => self.for_expr(cursor, room, line),
        }
    }

    #[tactic(auto, unfolding(crate::specs::Statements::for_by), using(crate::proofs::ByLead::by_head))]
    pub fn for_by(
        &self,
        cursor: &mut Cursor<'_>,
        room: usize,
        line: u32,
    ) -> Result<(Boxed<Stmt>, usize), ParseStop>
        requires expr { ReadsExpr T.stands self.now.fuel (F.pre self.now.expr) (F.post self.now.expr) }
        requires stmt { ReadsStmt S.stands self.now.fuel (G.pre self.now.stmt) (G.post self.now.stmt) }
        ensures { Reads (spec.for_by (expr self.now.fuel) (stmt self.now.fuel) room line cursor.old) result cursor.new }
    {
        cursor.expect(Mark::LeftParen)?;
        let lead = lead_of(cursor.next());
        self.head_by(cursor, room, line, lead)
    }
}
