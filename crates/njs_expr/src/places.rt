//! Expressions and items from a place of a text's tokens on.
ghost use Rattle.std.specs.Prelude.{◌≡◌, ◌≤◌, ◌<◌, ◌^◌, List, ℕ, None, drop, length};
ghost use Rattle.njs_tree.specs.Brackets.{too_deep};
ghost use Rattle.njs_tree.specs.Characters.{IsLine};
ghost use Rattle.njs_tree.specs.Grammar.{least_of, updates_here};
ghost use Rattle.njs_tree.specs.Symbols as symbols;
ghost use Rattle.njs_tree.specs.TokenList.{Tokens, symbols_of};
ghost use Rattle.njs_expr.specs.Answers.{ExpressionAt, ItemAt, IsPlaced};
ghost use Rattle.njs_expr.specs.Descent as spec;
ghost use Rattle.njs_expr.specs.Readers.{like, next_of};
ghost use Rattle.njs_expr.specs.Reads.{Reads};

use crate::ParseStop;
use crate::cursor::Cursor;
use crate::descent::{read_expression, read_statement};
use crate::tables::update_of;
use njs_text::Text;
use njs_tree::{Expr, Keyword, Stmt, Token};
use std::alloc::Global;

// The greatest depth of a tree.
const MAX_DEPTH: usize = 1000;

fn least_of(with_comma: bool) -> usize
    ensures { result ≡ least_of with_comma }
{
    if with_comma { 1 } else { 2 }
}

// Whether a `++` or `--` follows on the same line.
fn is_updated(cursor: &Cursor<'_>) -> bool
    ensures { result ≡ updates_here (symbols.update_of (like (next_of cursor.now))) (symbols.breaks cursor.now) }
{
    update_of(cursor.next()).is_some() && !cursor.breaks()
}

#[tactic(auto, unfolding(crate::specs::Descent::whole_expression, crate::specs::Descent::unless_updated))]
fn whole_expression(
    alloc: Global,
    cursor: &mut Cursor<'_>,
    with_in: bool,
    with_comma: bool,
) -> Result<(Expr, usize), ParseStop>
    ensures { Reads (spec.whole_expression with_in with_comma cursor.old) result cursor.new }
{
    let fuel = cursor.left();
    let least = least_of(with_comma);
    let (tree, depth) = read_expression(alloc, cursor, fuel, with_in, least, MAX_DEPTH)?;
    if is_updated(cursor) {
        return Err(cursor.refuse());
    }
    Ok((tree, depth))
}

#[tactic(auto, unfolding(crate::specs::Descent::whole_item, crate::specs::Descent::unless_carried))]
fn whole_item(alloc: Global, cursor: &mut Cursor<'_>) -> Result<(Stmt, usize), ParseStop>
    ensures { Reads (spec.whole_item cursor.old) result cursor.new }
{
    let fuel = cursor.left() + 1;
    let (tree, depth) = read_statement(alloc, cursor, fuel, true, MAX_DEPTH)?;
    if cursor.sees_word(Keyword::Else) || cursor.sees_word(Keyword::Finally) {
        return Err(cursor.refuse());
    }
    Ok((tree.into_inner(), depth))
}

fn rest_of(tokens: &[Token], at: usize) -> &[Token]
    requires { at ≤ length tokens.now }
    ensures { result.now ≡ drop at tokens.now }
{
    &tokens[at..]
}

fn from_place<'a>(text: &'a Text, tokens: &'a [Token], at: usize) -> Cursor<'a>
    requires tokens { Tokens text.now tokens.now }
    requires place { at ≤ length tokens.now }
    ensures { result ≡ drop at (symbols_of text.now tokens.now) }
{
    let _bytes = text.as_bytes();
    Cursor::new(text.as_str(), rest_of(tokens, at))
}

// The line of the token from which on so many are left.
fn line_before(tokens: &[Token], left: usize) -> u32
    ensures { (text : List ℕ) → Tokens text tokens.now → IsLine result text }
{
    match rest_of(tokens, tokens.len().saturating_sub(left)) {
        [] => 1,
        [token, ..] => token.line,
    }
}

// With the line of the token at which reading stopped.
fn stopped(stop: ParseStop, tokens: &[Token], left: usize) -> ParseStop
    ensures { IsPlaced stop tokens.now result }
{
    match stop {
        ParseStop::Refused(_) => ParseStop::Refused(line_before(tokens, left)),
        ParseStop::NoMemory => ParseStop::NoMemory,
    }
}

/// The expression that begins at a place among the tokens of a text, and the place behind it. `with_in` says whether `in` is an
/// operator, and `with_comma` whether commas may join expressions (ECMA-262 5.1 §11.14). Places count tokens. Where no expression
/// begins there, `Refused` has the line of the token at which reading stopped. An expression that is deeper than 1,000 nodes is none.
pub fn expression(
    alloc: Global,
    text: &Text,
    tokens: &[Token],
    at: usize,
    with_in: bool,
    with_comma: bool,
) -> Result<(Expr, usize), ParseStop>
    requires tokens { Tokens text.now tokens.now }
    requires place { at < length tokens.now }
    requires brackets { too_deep 0 tokens.now ≡ None }
    ensures { ExpressionAt with_in with_comma text.now tokens.now at result }
{
    let mut cursor = from_place(text, tokens, at);
    match whole_expression(alloc, &mut cursor, with_in, with_comma) {
        Ok((tree, _)) => Ok((tree, tokens.len() - cursor.left())),
        Err(stop) => Err(stopped(stop, tokens, cursor.left())),
    }
}

/// The statement or declaration of a function that begins at a place among the tokens of a text (ECMA-262 5.1 §12 to §14), and the
/// place behind it. Places count tokens. Where none begins there, `Refused` has the line of the token at which reading stopped. A
/// tree that is deeper than 1,000 nodes is none.
pub fn item(
    alloc: Global,
    text: &Text,
    tokens: &[Token],
    at: usize,
) -> Result<(Stmt, usize), ParseStop>
    requires tokens { Tokens text.now tokens.now }
    requires place { at < length tokens.now }
    requires brackets { too_deep 0 tokens.now ≡ None }
    ensures { ItemAt text.now tokens.now at result }
{
    let mut cursor = from_place(text, tokens, at);
    match whole_item(alloc, &mut cursor) {
        Ok((tree, _)) => Ok((tree, tokens.len() - cursor.left())),
        Err(stop) => Err(stopped(stop, tokens, cursor.left())),
    }
}
