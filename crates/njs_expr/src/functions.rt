//! Functions and lists of statements (ECMA-262 5.1 §13).
ghost use Rattle.std.specs.Prelude.{◌≡◌};
ghost use Rattle.njs_expr.specs.Descent.{expr, stmt};
ghost use Rattle.njs_expr.specs.Expressions as spec;
ghost use Rattle.njs_expr.specs.Reads.{Reads, ReadsExpr, ReadsStmt};

use crate::cursor::Cursor;
use crate::grammar::Grammar;
use crate::nodes::grown;
use crate::tables::closes;
use crate::trees::{ExprTree, StmtTree};
use crate::{ParseStop, Terminal};
use njs_text::{List, Text};
use njs_tree::{Expr, ExprNode, FunctionTree, Mark, Stmt};
use sqlite_items::Items;
use std::alloc::Global;
use std::marker::PhantomData;

#[tactic(auto, unfolding(crate::specs::Expressions::some_names, crate::specs::Expressions::names))]
fn some_names(alloc: Global, cursor: &mut Cursor<'_>) -> Result<List<Text>, ParseStop>
    ensures { Reads (spec.some_names cursor.old) result cursor.new }
{
    let mut found = List::new(alloc);
    for _turn in 0..cursor.left() {
        found.push(cursor.name(alloc)?)?;
        if !cursor.eat(Mark::Comma) {
            cursor.expect(Mark::RightParen)?;
            return Ok(found);
        }
    }
    Err(cursor.refuse())
}

#[tactic(auto, unfolding(crate::specs::Expressions::parameters, crate::specs::Expressions::some_names))]
fn parameters(alloc: Global, cursor: &mut Cursor<'_>) -> Result<List<Text>, ParseStop>
    ensures { Reads (spec.parameters cursor.old) result cursor.new }
{
    cursor.expect(Mark::LeftParen)?;
    if cursor.eat(Mark::RightParen) {
        return Ok(List::new(alloc));
    }
    some_names(alloc, cursor)
}

#[tactic(auto, unfolding(crate::specs::Expressions::optional_name))]
fn optional_name(alloc: Global, cursor: &mut Cursor<'_>) -> Result<Option<Text>, ParseStop>
    ensures { Reads (spec.optional_name cursor.old) result cursor.new }
{
    match cursor.next() {
        Terminal::Name => Ok(Some(cursor.name(alloc)?)),
        _ => Ok(None),
    }
}

impl<
    T: ExprTree,
    S: StmtTree,
    F: Fn(
        PhantomData<(T, S)>,
        Global,
        &mut Cursor<'_>,
        usize,
        bool,
        usize,
        usize,
    ) -> Result<(T, usize), ParseStop>,
    G: Fn(
        PhantomData<(T, S)>,
        Global,
        &mut Cursor<'_>,
        usize,
        bool,
        usize,
    ) -> Result<(S, usize), ParseStop>,
> Grammar<T, S, F, G> {
    /// The statements up to what ends a list of them.
    #[tactic(auto, unfolding(crate::specs::Expressions::whole_statements, crate::specs::Expressions::statements))]
    #[inline(never)]
    pub fn statements(
        &self,
        cursor: &mut Cursor<'_>,
        declares: bool,
        room: usize,
    ) -> Result<(Items<Stmt>, usize), ParseStop>
        requires stmt { ReadsStmt S.stands self.now.fuel (G.pre self.now.stmt) (G.post self.now.stmt) }
        ensures { Reads (spec.whole_statements (stmt self.now.fuel) declares room cursor.old) result cursor.new }
    {
        let mut found = Items::new(self.alloc);
        let mut below: usize = 0;
        for _turn in 0..cursor.left() {
            if closes(cursor.next()) {
                return Ok((found, below));
            }
            let (item, depth) = self.nested_statement(cursor, declares, room.saturating_sub(1))?;
            found.push(item.into_inner())?;
            below = below.max(depth);
        }
        Ok((found, below))
    }

    /// The statements in braces.
    #[tactic(auto, unfolding(crate::specs::Expressions::braced))]
    pub fn braced(
        &self,
        cursor: &mut Cursor<'_>,
        declares: bool,
        room: usize,
    ) -> Result<(Items<Stmt>, usize), ParseStop>
        requires stmt { ReadsStmt S.stands self.now.fuel (G.pre self.now.stmt) (G.post self.now.stmt) }
        ensures { Reads (spec.braced (stmt self.now.fuel) declares room cursor.old) result cursor.new }
    {
        cursor.expect(Mark::LeftBrace)?;
        let (items, depth) = self.statements(cursor, declares, room)?;
        cursor.expect(Mark::RightBrace)?;
        Ok((items, depth))
    }

    /// From the parameters on.
    #[tactic(auto, unfolding(crate::specs::Expressions::function))]
    pub fn function(
        &self,
        cursor: &mut Cursor<'_>,
        room: usize,
        name: Option<Text>,
    ) -> Result<(FunctionTree, usize), ParseStop>
        requires stmt { ReadsStmt S.stands self.now.fuel (G.pre self.now.stmt) (G.post self.now.stmt) }
        ensures { Reads (spec.function (stmt self.now.fuel) room name cursor.old) result cursor.new }
    {
        let params = parameters(self.alloc, cursor)?;
        let (body, depth) = self.braced(cursor, true, room)?;
        Ok((FunctionTree { name, params, body }, depth))
    }

    /// After `function`.
    #[tactic(auto, unfolding(crate::specs::Expressions::function_value))]
    pub fn function_value(
        &self,
        cursor: &mut Cursor<'_>,
        room: usize,
        line: u32,
    ) -> Result<(Expr, usize), ParseStop>
        requires stmt { ReadsStmt S.stands self.now.fuel (G.pre self.now.stmt) (G.post self.now.stmt) }
        ensures { Reads (spec.function_value (stmt self.now.fuel) room line cursor.old) result cursor.new }
    {
        let name = optional_name(self.alloc, cursor)?;
        let (tree, depth) = self.function(cursor, room, name)?;
        grown(cursor, room, line, ExprNode::Function(tree), depth)
    }
}
