// The tokens of a whole text.
ghost use Rattle.std.specs.Prelude.{IfOk};
ghost use Rattle.njs_stmt.specs.Cut.{IsCut};

use crate::lines::line_behind;
use crate::lookup::is_end;
use njs_lexer::next;
use njs_text::{NoMemory, Text};
use njs_tree::Token;
use std::alloc::Global;

/// The tokens of a text, or those up to the first fault, with a line of the text.
#[derive(Drop)]
pub struct Tokenized {
    pub tokens: Vec<Token>,
    pub fault: Option<u32>,
}

/// Cuts a text into its tokens (ECMA-262 5.1 §7).
pub fn tokenize(alloc: Global, text: &Text) -> Result<Tokenized, NoMemory>
    ensures { IfOk result (λ t. IsCut text.now t.tokens.items t.fault) }
{
    // A text has few characters, as its bytes' clause says.
    let _ = text.as_bytes();
    let mut tokens = Vec::new(alloc);
    let mut at = 0;
    let mut line = 1;
    loop {
        match next(text, at, line) {
            Err(_) => {
                return Ok(Tokenized {
                    tokens,
                    fault: Some(line),
                });
            }
            Ok(token) => {
                tokens.push(token)?;
                if is_end(token.kind) {
                    return Ok(Tokenized {
                        tokens,
                        fault: None,
                    });
                }
                at = token.to;
                line = line_behind(text, token);
            }
        }
    }
}
