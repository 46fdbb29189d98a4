// The kinds of characters of a configuration, and its lines.
ghost use Rattle.std.specs.Prelude.{◌≡◌, ◌≤◌, length};
ghost use Rattle.conf_read.specs.Characters.{is_blank, is_part, last_line};

pub fn is_blank(c: char) -> bool
    ensures { result ≡ is_blank c }
{
    matches!(c, ' ' | '\t' | '\r' | '\n')
}

pub fn is_part(c: char) -> bool
    ensures { result ≡ is_part c }
{
    !is_blank(c) && c != ';' && c != '{' && c != '}'
}

/// The last line of a text, counted from 1.
pub fn last_line(text: &[char]) -> usize
    ensures line { result ≡ last_line text.now }
    ensures few { result ≤ length text.now }
{
    let mut count = 0;
    let mut rest = text;
    while let [c, after @ ..] = rest {
        if *c == '\n' || after.is_empty() {
            count += 1;
        }
        rest = after;
    }
    count
}
