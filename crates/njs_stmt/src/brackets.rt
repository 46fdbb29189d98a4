// How deep the brackets of a text nest.
ghost use Rattle.std.specs.Prelude.{◌≡◌, ◌≤◌};
ghost use Rattle.njs_tree.specs.Brackets as spec;

use njs_tree::{Kind, Mark, Token};

const MAX_LEVEL: usize = 200;

// The level after a token.
fn level_after(level: usize, kind: Kind) -> usize
    requires { level ≤ spec.max_level }
    ensures { result ≡ spec.level_after level kind }
{
    match kind {
        Kind::Mark(Mark::LeftParen) => level + 1,
        Kind::Mark(Mark::LeftBracket) => level + 1,
        Kind::Mark(Mark::LeftBrace) => level + 1,
        Kind::Mark(Mark::RightParen) => level.saturating_sub(1),
        Kind::Mark(Mark::RightBracket) => level.saturating_sub(1),
        Kind::Mark(Mark::RightBrace) => level.saturating_sub(1),
        _ => level,
    }
}

/// The line of the first bracket that opens a level too many.
pub fn too_deep(tokens: &[Token]) -> Option<u32>
    ensures { result ≡ spec.too_deep 0 tokens.now }
{
    let mut level = 0;
    for token in tokens {
        level = level_after(level, token.kind);
        if level > MAX_LEVEL {
            return Some(token.line);
        }
    }
    None
}
