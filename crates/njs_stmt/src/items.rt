// The items of a script.
ghost use Rattle.std.specs.Prelude.{◌≡◌, ◌<◌, ◌||◌, Bool, drop, length, true, false};
ghost use Rattle.njs_tree.specs.declared.token.Keyword.TheVariants as keyword;
ghost use Rattle.njs_tree.specs.TokenList.{symbols_of};
ghost use Rattle.njs_expr.specs.Readers.{next_of, sees_word};
ghost use Rattle.njs_stmt.specs.Export.{ReadsValue};
ghost use Rattle.njs_stmt.specs.Script.{AreFit, ReadsItem, ReadsItems, is_export};

use crate::lookup::{is_comma_at, is_default_at, is_end, is_export_at, line_at, past_semicolon};
use njs_expr::{ParseStop, expression, item};
use njs_text::{List, Text};
use njs_tree::{Expr, Item, Token};
use std::alloc::Global;

// A value without commas and its semicolon.
fn value(
    alloc: Global,
    text: &Text,
    tokens: &[Token],
    at: usize,
) -> Result<(Expr, usize), ParseStop>
    requires fit { AreFit text.now tokens.now }
    requires place { at < length tokens.now }
    ensures { ReadsValue text.now tokens.now at result }
{
    let (value, to) = match expression(alloc, text, tokens, at, true, false) {
        Ok(found) => found,
        Err(stop) => return Err(stop),
    };
    if is_comma_at(tokens, to) {
        return Err(ParseStop::Refused(line_at(tokens, to)));
    }
    match past_semicolon(tokens, to) {
        Some(end) => Ok((value, end)),
        None => Err(ParseStop::Refused(line_at(tokens, to))),
    }
}

// `export default value;`
fn export(
    alloc: Global,
    text: &Text,
    tokens: &[Token],
    at: usize,
    exported: bool,
) -> Result<(Item, usize), ParseStop>
    requires fit { AreFit text.now tokens.now }
    requires place { at < length tokens.now }
    requires word { sees_word keyword.Export (next_of (drop at (symbols_of text.now tokens.now))) ≡ true }
    ensures { ReadsItem exported text.now tokens.now at result }
{
    if exported {
        return Err(ParseStop::Refused(line_at(tokens, at)));
    }
    if !is_default_at(text, tokens, at + 1) {
        return Err(ParseStop::Refused(line_at(tokens, at + 1)));
    }
    match value(alloc, text, tokens, at + 2) {
        Ok((value, to)) => Ok((Item::Export(line_at(tokens, at), value), to)),
        Err(stop) => Err(stop),
    }
}

// A statement or declaration.
fn statement(
    alloc: Global,
    text: &Text,
    tokens: &[Token],
    at: usize,
) -> Result<(Item, usize), ParseStop>
    requires fit { AreFit text.now tokens.now }
    requires place { at < length tokens.now }
    requires word { sees_word keyword.Export (next_of (drop at (symbols_of text.now tokens.now))) ≡ false }
    ensures { (exported : Bool) → ReadsItem exported text.now tokens.now at result }
{
    match item(alloc, text, tokens, at) {
        Ok((tree, to)) => Ok((Item::Stmt(tree), to)),
        Err(stop) => Err(stop),
    }
}

fn next_item(
    alloc: Global,
    text: &Text,
    tokens: &[Token],
    at: usize,
    exported: bool,
) -> Result<(Item, usize), ParseStop>
    requires fit { AreFit text.now tokens.now }
    requires place { at < length tokens.now }
    ensures { ReadsItem exported text.now tokens.now at result }
{
    if is_export_at(text, tokens, at) {
        export(alloc, text, tokens, at, exported)
    } else {
        statement(alloc, text, tokens, at)
    }
}

// Whether an export stands among the items up to this one.
fn exports(exported: bool, item: &Item) -> bool
    ensures { result ≡ (exported || is_export item.now) }
{
    exported || matches!(item, Item::Export(_, _))
}

/// The items of a script (ECMA-262 5.1 §14). At most one is an export.
pub fn items(alloc: Global, text: &Text, tokens: &[Token]) -> Result<List<Item>, ParseStop>
    requires { AreFit text.now tokens.now }
    ensures { ReadsItems text.now tokens.now result }
{
    let mut found = List::new(alloc);
    let mut exported = false;
    let mut at = 0;
    while let Some(token) = tokens.get(at) {
        if is_end(token.kind) {
            return Ok(found);
        }
        match next_item(alloc, text, tokens, at, exported) {
            Ok((item, to)) => {
                exported = exports(exported, &item);
                if found.push(item).is_err() {
                    return Err(ParseStop::NoMemory);
                }
                at = to;
            }
            Err(stop) => return Err(stop),
        }
    }
    Err(ParseStop::Refused(line_at(tokens, at)))
}
