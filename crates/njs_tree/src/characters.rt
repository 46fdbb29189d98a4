// The kinds of characters.
ghost use Rattle.std.specs.Prelude.{◌≡◌};
ghost use Rattle.njs_tree.specs.Characters.{is_line_end, is_white, is_letter, is_part};

/// LF, CR, U+2028 and U+2029 (ECMA-262 5.1 §7.3).
pub fn is_line_end(c: char) -> bool
    ensures { result ≡ is_line_end c }
{
    matches!(c, '\n' | '\r' | '\u{2028}' | '\u{2029}')
}

/// White space (ECMA-262 5.1 §7.2) and line ends.
pub fn is_white(c: char) -> bool
    ensures { result ≡ is_white c }
{
    matches!(c, '\t' | '\u{b}' | '\u{c}' | ' ' | '\u{a0}' | '\u{feff}') || is_line_end(c)
}

/// A letter a to z or A to Z, `$` or `_`.
pub fn is_letter(c: char) -> bool
    ensures { result ≡ is_letter c }
{
    matches!(c, 'a'..='z' | 'A'..='Z' | '$' | '_')
}

/// A letter as above, or a digit.
pub fn is_part(c: char) -> bool
    ensures { result ≡ is_part c }
{
    is_letter(c) || c.is_ascii_digit()
}
