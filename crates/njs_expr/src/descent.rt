//! Expressions and statements in one another.
ghost use Rattle.njs_expr.specs.Descent as spec;
ghost use Rattle.njs_expr.specs.Reads.{Reads, ReadsAs};

use crate::ParseStop;
use crate::cursor::Cursor;
use crate::grammar::Grammar;
use crate::trees::{ExprTree, StmtTree, expression_from, statement_from};
use njs_tree::{Expr, Stmt};
use sqlite_items::Boxed;
use std::alloc::Global;
use std::marker::PhantomData;

// The marker names the tree, which is a type parameter of the result: only so is the function passed to the rules.
#[cycle(descent)]
fn expr<T: ExprTree, S: StmtTree>(
    _of: PhantomData<(T, S)>,
    alloc: Global,
    cursor: &mut Cursor<'_>,
    fuel: usize,
    with_in: bool,
    least: usize,
    room: usize,
) -> Result<(T, usize), ParseStop>
    ensures { ReadsAs T.stands (spec.expr fuel with_in least room cursor.old) result cursor.new }
{
    if fuel == 0 || room == 0 {
        return Err(cursor.refuse());
    }
    let grammar = Grammar {
        alloc,
        fuel: fuel - 1,
        expr: expr::<T, S>,
        stmt: stmt::<T, S>,
        trees: PhantomData,
    };
    expression_from(grammar.level(cursor, with_in, least, room))
}

#[cycle(descent)]
fn stmt<T: ExprTree, S: StmtTree>(
    _of: PhantomData<(T, S)>,
    alloc: Global,
    cursor: &mut Cursor<'_>,
    fuel: usize,
    declares: bool,
    room: usize,
) -> Result<(S, usize), ParseStop>
    ensures { ReadsAs S.stands (spec.stmt fuel declares room cursor.old) result cursor.new }
{
    if fuel == 0 || room == 0 {
        return Err(cursor.refuse());
    }
    let grammar = Grammar {
        alloc,
        fuel: fuel - 1,
        expr: expr::<T, S>,
        stmt: stmt::<T, S>,
        trees: PhantomData,
    };
    statement_from(grammar.one_statement(cursor, declares, room))
}

/// An expression whose operators bind at least as tight as `least`, of a depth of at most `room`.
pub fn read_expression(
    alloc: Global,
    cursor: &mut Cursor<'_>,
    fuel: usize,
    with_in: bool,
    least: usize,
    room: usize,
) -> Result<(Expr, usize), ParseStop>
    ensures { Reads (spec.expr fuel with_in least room cursor.old) result cursor.new }
{
    expr::<Expr, Boxed<Stmt>>(PhantomData, alloc, cursor, fuel, with_in, least, room)
}

/// A statement of a depth of at most `room`, or where `declares` holds the declaration of a function.
pub fn read_statement(
    alloc: Global,
    cursor: &mut Cursor<'_>,
    fuel: usize,
    declares: bool,
    room: usize,
) -> Result<(Boxed<Stmt>, usize), ParseStop>
    ensures { Reads (spec.stmt fuel declares room cursor.old) result cursor.new }
{
    stmt::<Expr, Boxed<Stmt>>(PhantomData, alloc, cursor, fuel, declares, room)
}
