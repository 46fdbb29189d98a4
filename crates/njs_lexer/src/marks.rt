// Marks.
ghost use Rattle.std.specs.Prelude.{◌≡◌, length, drop, true, false, Some, None, IfSome};
ghost use Rattle.std.specs.Str.{chars, IsUtf8};
ghost use Rattle.njs_tree.specs.Lexemes.{marks, mark_text};
ghost use Rattle.njs_lexer.specs.Steps.{begins_text, first_begun};

use crate::rest::{begins_with, behind};
use njs_tree::Mark;

// The longer ones first.
const MARKS: &[Mark] = &[
    Mark::UShrAssign,
    Mark::StrictEq,
    Mark::StrictNe,
    Mark::UShr,
    Mark::ShlAssign,
    Mark::ShrAssign,
    Mark::Le,
    Mark::Ge,
    Mark::Eq,
    Mark::Ne,
    Mark::PlusPlus,
    Mark::MinusMinus,
    Mark::Shl,
    Mark::Shr,
    Mark::And,
    Mark::Or,
    Mark::AddAssign,
    Mark::SubAssign,
    Mark::MulAssign,
    Mark::DivAssign,
    Mark::RemAssign,
    Mark::AndAssign,
    Mark::OrAssign,
    Mark::XorAssign,
    Mark::LeftBrace,
    Mark::RightBrace,
    Mark::LeftParen,
    Mark::RightParen,
    Mark::LeftBracket,
    Mark::RightBracket,
    Mark::Dot,
    Mark::Semicolon,
    Mark::Comma,
    Mark::Lt,
    Mark::Gt,
    Mark::Plus,
    Mark::Minus,
    Mark::Star,
    Mark::Slash,
    Mark::Percent,
    Mark::BitAnd,
    Mark::BitOr,
    Mark::BitXor,
    Mark::Not,
    Mark::BitNot,
    Mark::Question,
    Mark::Colon,
    Mark::Assign,
];

fn spelling(mark: Mark) -> &'static [char]
    ensures { result.now ≡ mark_text mark }
{
    match mark {
        Mark::LeftBrace => &['{'],
        Mark::RightBrace => &['}'],
        Mark::LeftParen => &['('],
        Mark::RightParen => &[')'],
        Mark::LeftBracket => &['['],
        Mark::RightBracket => &[']'],
        Mark::Dot => &['.'],
        Mark::Semicolon => &[';'],
        Mark::Comma => &[','],
        Mark::Lt => &['<'],
        Mark::Gt => &['>'],
        Mark::Le => &['<', '='],
        Mark::Ge => &['>', '='],
        Mark::Eq => &['=', '='],
        Mark::Ne => &['!', '='],
        Mark::StrictEq => &['=', '=', '='],
        Mark::StrictNe => &['!', '=', '='],
        Mark::Plus => &['+'],
        Mark::Minus => &['-'],
        Mark::Star => &['*'],
        Mark::Slash => &['/'],
        Mark::Percent => &['%'],
        Mark::PlusPlus => &['+', '+'],
        Mark::MinusMinus => &['-', '-'],
        Mark::Shl => &['<', '<'],
        Mark::Shr => &['>', '>'],
        Mark::UShr => &['>', '>', '>'],
        Mark::BitAnd => &['&'],
        Mark::BitOr => &['|'],
        Mark::BitXor => &['^'],
        Mark::Not => &['!'],
        Mark::BitNot => &['~'],
        Mark::And => &['&', '&'],
        Mark::Or => &['|', '|'],
        Mark::Question => &['?'],
        Mark::Colon => &[':'],
        Mark::Assign => &['='],
        Mark::AddAssign => &['+', '='],
        Mark::SubAssign => &['-', '='],
        Mark::MulAssign => &['*', '='],
        Mark::DivAssign => &['/', '='],
        Mark::RemAssign => &['%', '='],
        Mark::ShlAssign => &['<', '<', '='],
        Mark::ShrAssign => &['>', '>', '='],
        Mark::UShrAssign => &['>', '>', '>', '='],
        Mark::AndAssign => &['&', '='],
        Mark::OrAssign => &['|', '='],
        Mark::XorAssign => &['^', '='],
    }
}

// What follows these characters, where the text begins with them.
fn past_text<'a>(expected: &[char], text: &'a str) -> Option<&'a str>
    ensures begins { IfSome result (λ rest. (begins_text expected.now (chars text.now) ≡ true) × (chars rest.now ≡ drop (length expected.now) (chars text.now))) }
    ensures utf8 { IfSome result (λ rest. IsUtf8 rest.now) }
    ensures other { result ≡ None → begins_text expected.now (chars text.now) ≡ false }
{
    let mut rest = text;
    for c in expected {
        if !begins_with(*c, rest) {
            return None;
        }
        rest = behind(rest);
    }
    Some(rest)
}

// The first of some marks with which the text begins, and what follows it.
fn first_of<'a>(marks: &[Mark], text: &'a str) -> Option<(Mark, &'a str)>
    ensures begins { IfSome result (λ found. (first_begun marks.now (chars text.now) ≡ Some found.0) × (chars found.1.now ≡ drop (length (mark_text found.0)) (chars text.now))) }
    ensures utf8 { IfSome result (λ found. IsUtf8 found.1.now) }
    ensures other { result ≡ None → first_begun marks.now (chars text.now) ≡ None }
{
    for mark in marks {
        if let Some(rest) = past_text(spelling(*mark), text) {
            return Some((*mark, rest));
        }
    }
    None
}

/// The longest mark at the front, and what follows it.
#[tactic(auto, unfolding(njs_tree::specs::Lexemes::marks))]
pub fn past_mark(text: &str) -> Option<(Mark, &str)>
    ensures begins { IfSome result (λ found. (first_begun marks (chars text.now) ≡ Some found.0) × (chars found.1.now ≡ drop (length (mark_text found.0)) (chars text.now))) }
    ensures utf8 { IfSome result (λ found. IsUtf8 found.1.now) }
    ensures other { result ≡ None → first_begun marks (chars text.now) ≡ None }
{
    first_of(MARKS, text)
}
