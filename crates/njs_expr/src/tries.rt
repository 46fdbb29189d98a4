//! `try` (ECMA-262 5.1 §12.14).
ghost use Rattle.std.specs.Prelude.{◌≡◌, false};
ghost use Rattle.njs_expr.specs.Statements as spec;
ghost use Rattle.njs_expr.specs.Descent.{stmt};
ghost use Rattle.njs_expr.specs.Reads.{Reads, ReadsStmt};

use crate::ParseStop;
use crate::cursor::Cursor;
use crate::grammar::Grammar;
use crate::nodes::stood;
use crate::trees::{ExprTree, StmtTree};
use njs_text::Text;
use njs_tree::{Expr, Keyword, Mark, Stmt, StmtNode};
use sqlite_items::{Boxed, Items};
use std::alloc::Global;
use std::marker::PhantomData;

impl<
    T: ExprTree,
    S: StmtTree,
    F: Fn(
        PhantomData<(T, S)>,
        Global,
        &mut Cursor<'_>,
        usize,
        bool,
        usize,
        usize,
    ) -> Result<(T, usize), ParseStop>,
    G: Fn(
        PhantomData<(T, S)>,
        Global,
        &mut Cursor<'_>,
        usize,
        bool,
        usize,
    ) -> Result<(S, usize), ParseStop>,
> Grammar<T, S, F, G> {
    #[tactic(auto, unfolding(crate::specs::Statements::caught))]
    fn caught(
        &self,
        cursor: &mut Cursor<'_>,
        room: usize,
    ) -> Result<(Option<(Text, Items<Stmt>)>, usize), ParseStop>
        requires stmt { ReadsStmt S.stands self.now.fuel (G.pre self.now.stmt) (G.post self.now.stmt) }
        ensures { Reads (spec.caught (stmt self.now.fuel) room cursor.old) result cursor.new }
    {
        cursor.expect(Mark::LeftParen)?;
        let name = cursor.name(self.alloc)?;
        cursor.expect(Mark::RightParen)?;
        let (body, depth) = self.braced(cursor, false, room)?;
        Ok((Some((name, body)), depth))
    }

    #[tactic(auto, unfolding(crate::specs::Statements::optional_catch))]
    fn optional_catch(
        &self,
        cursor: &mut Cursor<'_>,
        room: usize,
    ) -> Result<(Option<(Text, Items<Stmt>)>, usize), ParseStop>
        requires stmt { ReadsStmt S.stands self.now.fuel (G.pre self.now.stmt) (G.post self.now.stmt) }
        ensures { Reads (spec.optional_catch (stmt self.now.fuel) room cursor.old) result cursor.new }
    {
        if cursor.eat_word(Keyword::Catch) {
            self.caught(cursor, room)
        } else {
            Ok((None, 0))
        }
    }

    #[tactic(auto, unfolding(crate::specs::Statements::final_block))]
    fn final_block(
        &self,
        cursor: &mut Cursor<'_>,
        room: usize,
    ) -> Result<(Option<Items<Stmt>>, usize), ParseStop>
        requires stmt { ReadsStmt S.stands self.now.fuel (G.pre self.now.stmt) (G.post self.now.stmt) }
        ensures { Reads (spec.final_block (stmt self.now.fuel) room cursor.old) result cursor.new }
    {
        let (body, depth) = self.braced(cursor, false, room)?;
        Ok((Some(body), depth))
    }

    #[tactic(auto, unfolding(crate::specs::Statements::optional_finally))]
    fn optional_finally(
        &self,
        cursor: &mut Cursor<'_>,
        room: usize,
    ) -> Result<(Option<Items<Stmt>>, usize), ParseStop>
        requires stmt { ReadsStmt S.stands self.now.fuel (G.pre self.now.stmt) (G.post self.now.stmt) }
        ensures { Reads (spec.optional_finally (stmt self.now.fuel) room cursor.old) result cursor.new }
    {
        if cursor.eat_word(Keyword::Finally) {
            self.final_block(cursor, room)
        } else {
            Ok((None, 0))
        }
    }

    #[tactic(auto, unfolding(crate::specs::Statements::try_by))]
    #[inline(never)]
    pub fn try_by(
        &self,
        cursor: &mut Cursor<'_>,
        room: usize,
        line: u32,
    ) -> Result<(Boxed<Stmt>, usize), ParseStop>
        requires stmt { ReadsStmt S.stands self.now.fuel (G.pre self.now.stmt) (G.post self.now.stmt) }
        ensures { Reads (spec.try_by (stmt self.now.fuel) room line cursor.old) result cursor.new }
    {
        let (body, body_depth) = self.braced(cursor, false, room)?;
        let (caught, caught_depth) = self.optional_catch(cursor, room)?;
        let (finally, depth) = self.optional_finally(cursor, room)?;
        if caught.is_none() && finally.is_none() {
            return Err(cursor.refuse());
        }
        let node = StmtNode::Try {
            body,
            caught,
            finally,
        };
        stood(
            self.alloc,
            cursor,
            room,
            line,
            node,
            body_depth.max(caught_depth.max(depth)),
        )
    }
}
