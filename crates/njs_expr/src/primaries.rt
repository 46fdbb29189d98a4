//! Primary expressions (ECMA-262 5.1 §11.1).
ghost use Rattle.std.specs.Prelude.{◌≡◌, pos};
ghost use Rattle.njs_expr.specs.Descent.{expr, stmt};
ghost use Rattle.njs_expr.specs.Expressions as spec;
ghost use Rattle.njs_expr.specs.Reads.{Reads, ReadsExpr, ReadsStmt};
ghost use Rattle.njs_tree.specs.declared.tree.ExprNode.TheVariants as node;
ghost use Rattle.njs_expr.specs.Readers.{and_then, tail, next_of, take_number, take_string, take_name, grown};

use crate::cursor::Cursor;
use crate::grammar::Grammar;
use crate::nodes::grown;
use crate::trees::{ExprTree, StmtTree};
use crate::{ParseStop, Terminal};
use njs_text::Text;
use njs_tree::{Expr, ExprNode, Keyword, Mark};
use sqlite_items::Items;
use std::alloc::Global;
use std::marker::PhantomData;

// The node on the next symbol, which it is.
fn constant(
    cursor: &mut Cursor<'_>,
    room: usize,
    line: u32,
    node: ExprNode,
) -> Result<(Expr, usize), ParseStop>
    ensures { Reads (grown room line node 0 (tail cursor.old)) result cursor.new }
{
    cursor.take();
    grown(cursor, room, line, node, 0)
}

fn number(cursor: &mut Cursor<'_>, room: usize, line: u32) -> Result<(Expr, usize), ParseStop>
    ensures { Reads (and_then (take_number cursor.old) (λ n. grown room line (node.Num (pos n)) 0)) result cursor.new }
{
    let value = cursor.number()?;
    grown(cursor, room, line, ExprNode::Num(value as i64), 0)
}

fn string(
    alloc: Global,
    cursor: &mut Cursor<'_>,
    room: usize,
    line: u32,
) -> Result<(Expr, usize), ParseStop>
    ensures { Reads (and_then (take_string cursor.old) (λ text. grown room line (node.Str text) 0)) result cursor.new }
{
    let text = cursor.string(alloc)?;
    grown(cursor, room, line, ExprNode::Str(text), 0)
}

fn name(
    alloc: Global,
    cursor: &mut Cursor<'_>,
    room: usize,
    line: u32,
) -> Result<(Expr, usize), ParseStop>
    ensures { Reads (and_then (take_name cursor.old) (λ text. grown room line (node.Name text) 0)) result cursor.new }
{
    let text = cursor.name(alloc)?;
    grown(cursor, room, line, ExprNode::Name(text), 0)
}

// A property without a value.
fn shorthand(
    alloc: Global,
    cursor: &Cursor<'_>,
    room: usize,
    line: u32,
    key: &Text,
    first: Terminal,
) -> Result<(Expr, usize), ParseStop>
    ensures { Reads (spec.shorthand room line key.now first cursor.now) result cursor.now }
{
    match first {
        Terminal::Name => {
            let name = key.copy(alloc)?;
            grown(cursor, room, line, ExprNode::Name(name), 0)
        }
        _ => Err(cursor.refuse()),
    }
}

impl<
    T: ExprTree,
    S: StmtTree,
    F: Fn(
        PhantomData<(T, S)>,
        Global,
        &mut Cursor<'_>,
        usize,
        bool,
        usize,
        usize,
    ) -> Result<(T, usize), ParseStop>,
    G: Fn(
        PhantomData<(T, S)>,
        Global,
        &mut Cursor<'_>,
        usize,
        bool,
        usize,
    ) -> Result<(S, usize), ParseStop>,
> Grammar<T, S, F, G> {
    // After `(`.
    #[tactic(auto, unfolding(crate::specs::Expressions::parenthesized))]
    #[inline(never)]
    fn parenthesized(
        &self,
        cursor: &mut Cursor<'_>,
        room: usize,
    ) -> Result<(Expr, usize), ParseStop>
        requires expr { ReadsExpr T.stands self.now.fuel (F.pre self.now.expr) (F.post self.now.expr) }
        ensures { Reads (spec.parenthesized (expr self.now.fuel) room cursor.old) result cursor.new }
    {
        let (tree, depth) = self.nested(cursor, true, 1, room)?;
        cursor.expect(Mark::RightParen)?;
        Ok((tree, depth))
    }

    #[tactic(auto, unfolding(crate::specs::Expressions::valued_element))]
    #[inline(never)]
    fn valued_element(
        &self,
        cursor: &mut Cursor<'_>,
        room: usize,
    ) -> Result<(Option<Expr>, usize), ParseStop>
        requires expr { ReadsExpr T.stands self.now.fuel (F.pre self.now.expr) (F.post self.now.expr) }
        ensures { Reads (spec.valued_element (expr self.now.fuel) room cursor.old) result cursor.new }
    {
        let (tree, depth) = self.nested(cursor, true, 2, room.saturating_sub(1))?;
        cursor.separate(Mark::RightBracket)?;
        Ok((Some(tree), depth))
    }

    // A hole or a value, with the comma after it.
    #[tactic(auto, unfolding(crate::specs::Expressions::element))]
    fn element(
        &self,
        cursor: &mut Cursor<'_>,
        room: usize,
    ) -> Result<(Option<Expr>, usize), ParseStop>
        requires expr { ReadsExpr T.stands self.now.fuel (F.pre self.now.expr) (F.post self.now.expr) }
        ensures { Reads (spec.element (expr self.now.fuel) room cursor.old) result cursor.new }
    {
        if cursor.eat(Mark::Comma) {
            return Ok((None, 0));
        }
        self.valued_element(cursor, room)
    }

    #[tactic(auto, unfolding(crate::specs::Expressions::whole_elements, crate::specs::Expressions::elements))]
    #[inline(never)]
    fn elements(
        &self,
        cursor: &mut Cursor<'_>,
        room: usize,
    ) -> Result<(Items<Option<Expr>>, usize), ParseStop>
        requires expr { ReadsExpr T.stands self.now.fuel (F.pre self.now.expr) (F.post self.now.expr) }
        ensures { Reads (spec.whole_elements (expr self.now.fuel) room cursor.old) result cursor.new }
    {
        let mut found = Items::new(self.alloc);
        let mut below: usize = 0;
        for _turn in 0..cursor.left() {
            if cursor.eat(Mark::RightBracket) {
                return Ok((found, below));
            }
            let (value, depth) = self.element(cursor, room)?;
            found.push(value)?;
            below = below.max(depth);
        }
        Err(cursor.refuse())
    }

    // After `[`.
    #[tactic(auto, unfolding(crate::specs::Expressions::array))]
    fn array(
        &self,
        cursor: &mut Cursor<'_>,
        room: usize,
        line: u32,
    ) -> Result<(Expr, usize), ParseStop>
        requires expr { ReadsExpr T.stands self.now.fuel (F.pre self.now.expr) (F.post self.now.expr) }
        ensures { Reads (spec.array (expr self.now.fuel) room line cursor.old) result cursor.new }
    {
        let (values, depth) = self.elements(cursor, room)?;
        grown(cursor, room, line, ExprNode::Array(values), depth)
    }

    // The value after the key and its colon. Without one it is the key itself, where it is a name.
    #[tactic(auto, unfolding(crate::specs::Expressions::property_value))]
    #[inline(never)]
    fn property_value(
        &self,
        cursor: &mut Cursor<'_>,
        room: usize,
        line: u32,
        key: &Text,
        first: Terminal,
        has_value: bool,
    ) -> Result<(Expr, usize), ParseStop>
        requires expr { ReadsExpr T.stands self.now.fuel (F.pre self.now.expr) (F.post self.now.expr) }
        ensures { Reads (spec.property_value (expr self.now.fuel) room line key.now first has_value cursor.old) result cursor.new }
    {
        if has_value {
            return self.nested(cursor, true, 2, room.saturating_sub(1));
        }
        shorthand(self.alloc, cursor, room.saturating_sub(1), line, key, first)
    }

    // With the comma after it.
    #[tactic(auto, unfolding(crate::specs::Expressions::property))]
    fn property(
        &self,
        cursor: &mut Cursor<'_>,
        room: usize,
    ) -> Result<((Text, Expr), usize), ParseStop>
        requires expr { ReadsExpr T.stands self.now.fuel (F.pre self.now.expr) (F.post self.now.expr) }
        ensures { Reads (spec.property (expr self.now.fuel) room cursor.old) result cursor.new }
    {
        let line = cursor.line();
        let first = cursor.next();
        let key = cursor.key(self.alloc)?;
        let has_value = cursor.eat(Mark::Colon);
        let (value, depth) = self.property_value(cursor, room, line, &key, first, has_value)?;
        cursor.separate(Mark::RightBrace)?;
        Ok(((key, value), depth))
    }

    #[tactic(auto, unfolding(crate::specs::Expressions::whole_properties, crate::specs::Expressions::properties))]
    #[inline(never)]
    fn properties(
        &self,
        cursor: &mut Cursor<'_>,
        room: usize,
    ) -> Result<(Items<(Text, Expr)>, usize), ParseStop>
        requires expr { ReadsExpr T.stands self.now.fuel (F.pre self.now.expr) (F.post self.now.expr) }
        ensures { Reads (spec.whole_properties (expr self.now.fuel) room cursor.old) result cursor.new }
    {
        let mut found = Items::new(self.alloc);
        let mut below: usize = 0;
        for _turn in 0..cursor.left() {
            if cursor.eat(Mark::RightBrace) {
                return Ok((found, below));
            }
            let (pair, depth) = self.property(cursor, room)?;
            found.push(pair)?;
            below = below.max(depth);
        }
        Err(cursor.refuse())
    }

    // After `{`.
    #[tactic(auto, unfolding(crate::specs::Expressions::object))]
    fn object(
        &self,
        cursor: &mut Cursor<'_>,
        room: usize,
        line: u32,
    ) -> Result<(Expr, usize), ParseStop>
        requires expr { ReadsExpr T.stands self.now.fuel (F.pre self.now.expr) (F.post self.now.expr) }
        ensures { Reads (spec.object (expr self.now.fuel) room line cursor.old) result cursor.new }
    {
        let (pairs, depth) = self.properties(cursor, room)?;
        grown(cursor, room, line, ExprNode::Object(pairs), depth)
    }

    // A primary that a reserved word begins.
    fn word_primary(
        &self,
        cursor: &mut Cursor<'_>,
        with_in: bool,
        room: usize,
        line: u32,
    ) -> Result<(Expr, usize), ParseStop>
        requires expr { ReadsExpr T.stands self.now.fuel (F.pre self.now.expr) (F.post self.now.expr) }
        requires stmt { ReadsStmt S.stands self.now.fuel (G.pre self.now.stmt) (G.post self.now.stmt) }
        ensures { Reads (spec.word_primary (expr self.now.fuel) (stmt self.now.fuel) with_in room line (next_of cursor.old) cursor.old) result cursor.new }
    {
        match cursor.next() {
            Terminal::Reserved(Keyword::This) => constant(cursor, room, line, ExprNode::This),
            Terminal::Reserved(Keyword::Null) => constant(cursor, room, line, ExprNode::Null),
            Terminal::Reserved(Keyword::True) => constant(cursor, room, line, ExprNode::Bool(true)),
            Terminal::Reserved(Keyword::False) => constant(
                cursor,
                room,
                line,
                ExprNode::Bool(false),
            ),
            Terminal::Reserved(Keyword::Function) => {
                cursor.take();
                self.function_value(cursor, room, line)
            }
            Terminal::Reserved(Keyword::New) => {
                cursor.take();
                self.newed(cursor, with_in, room, line)
            }
            _ => Err(cursor.refuse()),
        }
    }

    #[tactic(auto, unfolding(crate::specs::Expressions::primary))]
    pub fn primary(
        &self,
        cursor: &mut Cursor<'_>,
        with_in: bool,
        room: usize,
        line: u32,
    ) -> Result<(Expr, usize), ParseStop>
        requires expr { ReadsExpr T.stands self.now.fuel (F.pre self.now.expr) (F.post self.now.expr) }
        requires stmt { ReadsStmt S.stands self.now.fuel (G.pre self.now.stmt) (G.post self.now.stmt) }
        ensures { Reads (spec.primary (expr self.now.fuel) (stmt self.now.fuel) with_in room line cursor.old) result cursor.new }
    {
        match cursor.next() {
            Terminal::Number => number(cursor, room, line),
            Terminal::Str => string(self.alloc, cursor, room, line),
            Terminal::Name => name(self.alloc, cursor, room, line),
            Terminal::Mark(Mark::LeftParen) => {
                cursor.take();
                self.parenthesized(cursor, room)
            }
            Terminal::Mark(Mark::LeftBracket) => {
                cursor.take();
                self.array(cursor, room, line)
            }
            Terminal::Mark(Mark::LeftBrace) => {
                cursor.take();
                self.object(cursor, room, line)
            }
            _ => self.word_primary(cursor, with_in, room, line),
        }
    }
}
