//! Statements, by their first symbols (ECMA-262 5.1 §12).
ghost use Rattle.std.specs.Prelude.{◌≡◌, false};
ghost use Rattle.njs_tree.specs.declared.tree.StmtNode.TheVariants as step;
ghost use Rattle.njs_expr.specs.Readers as readers;
ghost use Rattle.njs_expr.specs.Statements as spec;
ghost use Rattle.njs_expr.specs.Leads as leads;
ghost use Rattle.njs_expr.specs.Descent.{expr, stmt};
ghost use Rattle.njs_expr.specs.Reads.{Reads, ReadsExpr, ReadsStmt};

use crate::cursor::Cursor;
use crate::grammar::Grammar;
use crate::jumps::{break_by, continue_by};
use crate::leads::{Jump, Lead, Loop, lead_of};
use crate::nodes::stood;
use crate::tables::{is_loop, sees};
use crate::trees::{ExprTree, StmtTree};
use crate::{ParseStop, Terminal};
use njs_tree::{Expr, Mark, Stmt, StmtNode};
use sqlite_items::Boxed;
use std::alloc::Global;
use std::marker::PhantomData;

// A statement that is empty, made in a frame of its own, which no nested statement waits on.
#[inline(never)]
fn empty(
    alloc: Global,
    cursor: &Cursor<'_>,
    room: usize,
    line: u32,
) -> Result<(Boxed<Stmt>, usize), ParseStop>
    ensures { Reads (readers.stood room line step.Empty 0 cursor.now) result cursor.now }
{
    stood(alloc, cursor, room, line, StmtNode::Empty, 0)
}

impl<
    T: ExprTree,
    S: StmtTree,
    F: Fn(
        PhantomData<(T, S)>,
        Global,
        &mut Cursor<'_>,
        usize,
        bool,
        usize,
        usize,
    ) -> Result<(T, usize), ParseStop>,
    G: Fn(
        PhantomData<(T, S)>,
        Global,
        &mut Cursor<'_>,
        usize,
        bool,
        usize,
    ) -> Result<(S, usize), ParseStop>,
> Grammar<T, S, F, G> {
    #[tactic(auto, unfolding(crate::specs::Statements::block_by))]
    #[inline(never)]
    fn block_by(
        &self,
        cursor: &mut Cursor<'_>,
        room: usize,
        line: u32,
    ) -> Result<(Boxed<Stmt>, usize), ParseStop>
        requires stmt { ReadsStmt S.stands self.now.fuel (G.pre self.now.stmt) (G.post self.now.stmt) }
        ensures { Reads (spec.block_by (stmt self.now.fuel) room line cursor.old) result cursor.new }
    {
        let (body, depth) = self.braced(cursor, false, room)?;
        stood(self.alloc, cursor, room, line, StmtNode::Block(body), depth)
    }

    #[tactic(auto, unfolding(crate::specs::Statements::label_statement))]
    #[inline(never)]
    fn label_statement(
        &self,
        cursor: &mut Cursor<'_>,
        room: usize,
        line: u32,
    ) -> Result<(Boxed<Stmt>, usize), ParseStop>
        requires stmt { ReadsStmt S.stands self.now.fuel (G.pre self.now.stmt) (G.post self.now.stmt) }
        ensures { Reads (spec.label_statement (stmt self.now.fuel) room line cursor.old) result cursor.new }
    {
        let name = cursor.name(self.alloc)?;
        cursor.expect(Mark::Colon)?;
        let (body, depth) = self.nested_statement(cursor, false, room.saturating_sub(1))?;
        if !is_loop(body.get()) {
            return Err(cursor.refuse());
        }
        stood(
            self.alloc,
            cursor,
            room,
            line,
            StmtNode::Label(name, body),
            depth,
        )
    }

    #[tactic(auto, unfolding(crate::specs::Statements::name_by))]
    fn name_by(
        &self,
        cursor: &mut Cursor<'_>,
        room: usize,
        line: u32,
        second: Terminal,
    ) -> Result<(Boxed<Stmt>, usize), ParseStop>
        requires expr { ReadsExpr T.stands self.now.fuel (F.pre self.now.expr) (F.post self.now.expr) }
        requires stmt { ReadsStmt S.stands self.now.fuel (G.pre self.now.stmt) (G.post self.now.stmt) }
        ensures { Reads (spec.name_by (expr self.now.fuel) (stmt self.now.fuel) room line second cursor.old) result cursor.new }
    {
        if sees(Mark::Colon, second) {
            self.label_statement(cursor, room, line)
        } else {
            self.expression_by(cursor, room, line)
        }
    }

    fn jump_by(
        &self,
        cursor: &mut Cursor<'_>,
        room: usize,
        line: u32,
        word: Jump,
    ) -> Result<(Boxed<Stmt>, usize), ParseStop>
        requires expr { ReadsExpr T.stands self.now.fuel (F.pre self.now.expr) (F.post self.now.expr) }
        ensures { Reads (leads.jump_by (expr self.now.fuel) room line word cursor.old) result cursor.new }
    {
        match word {
            Jump::Continue => continue_by(self.alloc, cursor, room, line),
            Jump::Break => break_by(self.alloc, cursor, room, line),
            Jump::Return => self.return_by(cursor, room, line),
            Jump::Throw => self.throw_by(cursor, room, line),
        }
    }

    fn loop_by(
        &self,
        cursor: &mut Cursor<'_>,
        room: usize,
        line: u32,
        word: Loop,
    ) -> Result<(Boxed<Stmt>, usize), ParseStop>
        requires expr { ReadsExpr T.stands self.now.fuel (F.pre self.now.expr) (F.post self.now.expr) }
        requires stmt { ReadsStmt S.stands self.now.fuel (G.pre self.now.stmt) (G.post self.now.stmt) }
        ensures { Reads (leads.loop_by (expr self.now.fuel) (stmt self.now.fuel) room line word cursor.old) result cursor.new }
    {
        match word {
            Loop::Do => self.do_by(cursor, room, line),
            Loop::While => self.while_by(cursor, room, line),
            Loop::For => self.for_by(cursor, room, line),
        }
    }

    fn lead_by(
        &self,
        cursor: &mut Cursor<'_>,
        declares: bool,
        room: usize,
        line: u32,
        lead: Lead,
        second: Terminal,
    ) -> Result<(Boxed<Stmt>, usize), ParseStop>
        requires expr { ReadsExpr T.stands self.now.fuel (F.pre self.now.expr) (F.post self.now.expr) }
        requires stmt { ReadsStmt S.stands self.now.fuel (G.pre self.now.stmt) (G.post self.now.stmt) }
        ensures { Reads (leads.lead_by (expr self.now.fuel) (stmt self.now.fuel) declares room line lead second cursor.old) result cursor.new }
    {
        match lead {
            Lead::Empty => {
                cursor.take();
                empty(self.alloc, cursor, room, line)
            }
            Lead::Block => self.block_by(cursor, room, line),
            Lead::Function => self.function_by(cursor, declares, room, line),
            Lead::Name => self.name_by(cursor, room, line, second),
            Lead::Var => {
                cursor.take();
                self.var_by(cursor, room, line)
            }
            Lead::If => {
                cursor.take();
                self.if_by(cursor, room, line)
            }
            Lead::Switch => {
                cursor.take();
                self.switch_by(cursor, room, line)
            }
            Lead::Try => {
                cursor.take();
                self.try_by(cursor, room, line)
            }
            Lead::Loop(word) => {
                cursor.take();
                self.loop_by(cursor, room, line, word)
            }
            Lead::Jump(word) => {
                cursor.take();
                self.jump_by(cursor, room, line, word)
            }
            Lead::Expression => self.expression_by(cursor, room, line),
        }
    }

    /// A statement, and where the test holds, the declaration of a function.
    #[tactic(auto, unfolding(crate::specs::Statements::one_statement), using(crate::proofs::ByLead::by_lead))]
    pub fn one_statement(
        &self,
        cursor: &mut Cursor<'_>,
        declares: bool,
        room: usize,
    ) -> Result<(Boxed<Stmt>, usize), ParseStop>
        requires expr { ReadsExpr T.stands self.now.fuel (F.pre self.now.expr) (F.post self.now.expr) }
        requires stmt { ReadsStmt S.stands self.now.fuel (G.pre self.now.stmt) (G.post self.now.stmt) }
        ensures { Reads (spec.one_statement (expr self.now.fuel) (stmt self.now.fuel) declares room cursor.old) result cursor.new }
    {
        let line = cursor.line();
        let lead = lead_of(cursor.next());
        let second = cursor.second();
        self.lead_by(cursor, declares, room, line, lead, second)
    }
}
