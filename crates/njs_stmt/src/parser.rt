// The script that a text spells.
ghost use Rattle.std.specs.Prelude.{◌≡◌, None};
ghost use Rattle.njs_tree.specs.Brackets.{too_deep};
ghost use Rattle.njs_tree.specs.TokenList.{Tokens};
ghost use Rattle.njs_stmt.specs.Cut.{IsCut, IsTooLong};
ghost use Rattle.njs_stmt.specs.Script.{Parses};

use crate::brackets::too_deep;
use crate::fault::ScriptFault;
use crate::items::items;
use crate::tokens::{Tokenized, tokenize};
use njs_expr::ParseStop;
use njs_text::{NoMemory, Text};
use njs_tree::{Script, Token};
use std::alloc::Global;

const MAX_BYTES: usize = 1_048_576;

fn parse_items(alloc: Global, text: &Text, tokens: &[Token]) -> Result<Script, ScriptFault>
    requires tokens { Tokens text.now tokens.now }
    requires brackets { too_deep 0 tokens.now ≡ None }
    requires short { IsTooLong text.now → ⊥ }
    ensures { Parses text.now result }
{
    match items(alloc, text, tokens) {
        Ok(items) => Ok(Script { items }),
        Err(ParseStop::Refused(line)) => Err(ScriptFault::Syntax(line)),
        Err(ParseStop::NoMemory) => Err(ScriptFault::NoMemory),
    }
}

fn parse_cut(alloc: Global, text: &Text, cut: &Tokenized) -> Result<Script, ScriptFault>
    requires tokens { IsCut text.now cut.now.tokens.items cut.now.fault }
    requires short { IsTooLong text.now → ⊥ }
    ensures { Parses text.now result }
{
    if let Some(line) = too_deep(&cut.tokens) {
        return Err(ScriptFault::TooDeep(line));
    }
    match cut.fault {
        Some(line) => Err(ScriptFault::Syntax(line)),
        None => parse_items(alloc, text, &cut.tokens),
    }
}

/// Reads a script (ECMA-262 5.1 §14): the one tree of a depth up to 1,000 that the text spells, with at most one
/// `export default value;` among its items.
///
/// The faults come in the order of `ScriptFault`: `TooLong` for more than 1,048,576 bytes of UTF-8; then `TooDeep` where brackets nest
/// deeper than 200 in the tokens up to the first that is none (§7); then `Syntax` where no such tree spells the text, be it for a
/// token (§7) or for the grammar (§11 to §14). Early refusals (§16) are none of them.
pub fn parse(alloc: Global, text: &Text) -> Result<Script, ScriptFault>
    ensures { Parses text.now result }
{
    if text.as_bytes().len() > MAX_BYTES {
        return Err(ScriptFault::TooLong);
    }
    match tokenize(alloc, text) {
        Ok(cut) => parse_cut(alloc, text, &cut),
        Err(NoMemory) => Err(ScriptFault::NoMemory),
    }
}
