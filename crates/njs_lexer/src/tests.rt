// What the clauses don't say: that examples from ECMA-262 5.1 §7 are cut as they should be.
use super::*;
use njs_text::{NoMemory, Text};
use std::alloc::Global;
use std::test::Fail;

fn text(alloc: Global, content: &str) -> Result<Text, NoMemory> {
    match Text::from_utf8(alloc, content.as_bytes()) {
        Ok(text) => Ok(text),
        Err(_) => Err(NoMemory),
    }
}

fn shown_token(alloc: Global, token: &Token) -> Result<String, NoMemory> {
    let mark = if token.after_break { "!" } else { "" };
    Ok(format!(in alloc;
        "{:?} {}-{}/{}{}",
        token.kind, token.from, token.to, token.line, mark
    )?)
}

// The tokens of a text up to its end or the first fault: kind, bytes and line of each, and `!` behind a line end.
fn shown(alloc: Global, content: &Text) -> Result<String, NoMemory> {
    let mut all = String::new(alloc);
    let mut at = 0;
    let mut line = 1;
    for _ in 0..100 {
        if !content.as_str().is_char_boundary(at) {
            break;
        }
        match next(content, at, line) {
            Ok(token) => {
                all.push_str(shown_token(alloc, &token)?.as_str())?;
                if token.kind == Kind::End {
                    break;
                }
                all.push_str(" ")?;
                at = token.to;
                line = token.line;
            }
            Err(fault) => {
                all.push_str(format!(in alloc; "{fault:?}")?.as_str())?;
                break;
            }
        }
    }
    Ok(all)
}

const TEXTS: &[(&str, &str)] = &[
    (
        "{ } ( ) [ ] . ; , < > <= >= == != === !== + - * / % ++ -- << >> >>> & | ^ ! ~ && || ? : = += -= *= /= %= <<= >>= >>>= &= |= ^=",
        "Mark(LeftBrace) 0-1/1 Mark(RightBrace) 2-3/1 Mark(LeftParen) 4-5/1 Mark(RightParen) 6-7/1 Mark(LeftBracket) 8-9/1 Mark(RightBracket) 10-11/1 Mark(Dot) 12-13/1 Mark(Semicolon) 14-15/1 Mark(Comma) 16-17/1 Mark(Lt) 18-19/1 Mark(Gt) 20-21/1 Mark(Le) 22-24/1 Mark(Ge) 25-27/1 Mark(Eq) 28-30/1 Mark(Ne) 31-33/1 Mark(StrictEq) 34-37/1 Mark(StrictNe) 38-41/1 Mark(Plus) 42-43/1 Mark(Minus) 44-45/1 Mark(Star) 46-47/1 Mark(Slash) 48-49/1 Mark(Percent) 50-51/1 Mark(PlusPlus) 52-54/1 Mark(MinusMinus) 55-57/1 Mark(Shl) 58-60/1 Mark(Shr) 61-63/1 Mark(UShr) 64-67/1 Mark(BitAnd) 68-69/1 Mark(BitOr) 70-71/1 Mark(BitXor) 72-73/1 Mark(Not) 74-75/1 Mark(BitNot) 76-77/1 Mark(And) 78-80/1 Mark(Or) 81-83/1 Mark(Question) 84-85/1 Mark(Colon) 86-87/1 Mark(Assign) 88-89/1 Mark(AddAssign) 90-92/1 Mark(SubAssign) 93-95/1 Mark(MulAssign) 96-98/1 Mark(DivAssign) 99-101/1 Mark(RemAssign) 102-104/1 Mark(ShlAssign) 105-108/1 Mark(ShrAssign) 109-112/1 Mark(UShrAssign) 113-117/1 Mark(AndAssign) 118-120/1 Mark(OrAssign) 121-123/1 Mark(XorAssign) 124-126/1 End 126-126/1",
    ),
    (">>>>=", "Mark(UShr) 0-3/1 Mark(Ge) 3-5/1 End 5-5/1"),
    (
        "a+++b",
        "Word 0-1/1 Mark(PlusPlus) 1-3/1 Mark(Plus) 3-4/1 Word 4-5/1 End 5-5/1",
    ),
    (
        "<<<= !=== &&& -->",
        "Mark(Shl) 0-2/1 Mark(Le) 2-4/1 Mark(StrictNe) 5-8/1 Mark(Assign) 8-9/1 Mark(And) 10-12/1 Mark(BitAnd) 12-13/1 Mark(MinusMinus) 14-16/1 Mark(Gt) 16-17/1 End 17-17/1",
    ),
    ("", "End 0-0/1"),
    (
        "in instanceof in_ $9 A",
        "Word 0-2/1 Word 3-13/1 Word 14-17/1 Word 18-20/1 Word 21-22/1 End 22-22/1",
    ),
    ("a/b", "Word 0-1/1 Mark(Slash) 1-2/1 Word 2-3/1 End 3-3/1"),
    (
        "0 7 10 0x1f 0XAb 9007199254740991 0x1fffffffffffff",
        "Number 0-1/1 Number 2-3/1 Number 4-6/1 Number 7-11/1 Number 12-16/1 Number 17-33/1 Number 34-50/1 End 50-50/1",
    ),
    ("1 .x", "Number 0-1/1 Mark(Dot) 2-3/1 Word 3-4/1 End 4-4/1"),
    ("a.5", "Word 0-1/1 BadNumber"),
    ("00", "BadNumber"),
    ("01", "BadNumber"),
    ("1.", "BadNumber"),
    ("1.5", "BadNumber"),
    (".5", "BadNumber"),
    ("1a", "BadNumber"),
    ("1$", "BadNumber"),
    ("1_", "BadNumber"),
    ("1.x", "BadNumber"),
    ("0x", "BadNumber"),
    ("0xg", "BadNumber"),
    ("0x1g", "BadNumber"),
    ("0X", "BadNumber"),
    ("9007199254740992", "BadNumber"),
    ("0x20000000000000", "BadNumber"),
    ("99999999999999999999999999", "BadNumber"),
    (
        "'\\b\\t\\n\\v\\f\\r\\\"\\'\\\\\\0\\x4a\\u0041\\uD83D\\uDE00\\q' x",
        "Str 0-46/1 Word 47-48/1 End 48-48/1",
    ),
    ("\"\u{e9}'\"", "Str 0-5/1 End 5-5/1"),
    ("'a\\\nb'", "Str 0-6/1 End 6-6/1"),
    ("'a\nb'", "OpenText"),
    ("'a\\\rb'", "Str 0-6/1 End 6-6/1"),
    ("'a\rb'", "OpenText"),
    ("'a\\\r\nb'", "Str 0-7/1 End 7-7/1"),
    ("'a\r\nb'", "OpenText"),
    ("'a\\\u{2028}b'", "Str 0-8/1 End 8-8/1"),
    ("'a\u{2028}b'", "OpenText"),
    ("'a\\\u{2029}b'", "Str 0-8/1 End 8-8/1"),
    ("'a\u{2029}b'", "OpenText"),
    ("'", "OpenText"),
    ("'a\"", "OpenText"),
    ("'a\\", "OpenText"),
    ("'a\\'", "OpenText"),
    ("'\\1'", "BadEscape"),
    ("'\\8'", "BadEscape"),
    ("'\\00'", "BadEscape"),
    ("'\\x'", "BadEscape"),
    ("'\\x4'", "BadEscape"),
    ("'\\x4g'", "BadEscape"),
    ("'\\u'", "BadEscape"),
    ("'\\u004'", "BadEscape"),
    ("'\\u004g'", "BadEscape"),
    ("'\\u{41}'", "BadEscape"),
    ("'\\uD83D'", "BadEscape"),
    ("'\\uD83Dx'", "BadEscape"),
    ("'\\uD83D\\n'", "BadEscape"),
    ("'\\uD83D\\u0041'", "BadEscape"),
    ("'\\uDE00'", "BadEscape"),
    ("'\\uD83D\\uD83D'", "BadEscape"),
    ("'\\u00", "BadEscape"),
    ("'\\1\n'", "BadEscape"),
    ("'a\n\\1'", "OpenText"),
    ("'\\0a'", "Str 0-5/1 End 5-5/1"),
    ("a /* x */ b", "Word 0-1/1 Word 10-11/1 End 11-11/1"),
    ("a // x\nb", "Word 0-1/1 Word 7-8/2! End 8-8/2"),
    ("a /* x\n * / **/ b", "Word 0-1/1 Word 16-17/2! End 17-17/2"),
    ("// x", "End 4-4/1"),
    ("//\u{2029}/**/", "End 9-9/2!"),
    ("/*", "OpenComment"),
    ("/*/", "OpenComment"),
    ("a /* *", "Word 0-1/1 OpenComment"),
    ("/**/*/", "Mark(Star) 4-5/1 Mark(Slash) 5-6/1 End 6-6/1"),
    (
        "a\r\nb\rc\u{2028}d\u{2029}e\nf\n\r",
        "Word 0-1/1 Word 3-4/2! Word 5-6/3! Word 9-10/4! Word 13-14/5! Word 15-16/6! End 18-18/8!",
    ),
    ("\t\u{b}\u{c} \u{a0}\u{feff}a", "Word 9-10/1 End 10-10/1"),
    ("#", "BadByte"),
    ("@", "BadByte"),
    ("`", "BadByte"),
    ("\\", "BadByte"),
    ("\u{e9}", "BadByte"),
    ("\0", "BadByte"),
    ("\u{1680}", "BadByte"),
    ("a\u{e9}", "Word 0-1/1 BadByte"),
];

#[test]
fn texts_are_cut(rt: HostRuntime) -> Result<(), Fail> {
    let alloc = rt.alloc();
    for (content, expected) in TEXTS {
        let found = shown(alloc, &text(alloc, content)?)?;
        assert_eq!(rt; found.as_str(), *expected, "of {content}");
    }
    Ok(())
}

#[test]
fn lines_stand_still(rt: HostRuntime) -> Result<(), Fail> {
    let content = text(rt.alloc(), "\n\na")?;
    if content.as_str().is_char_boundary(0) {
        let token = next(&content, 0, u32::MAX - 1).expect(&rt, "a token");
        assert_eq!(rt; token.line, u32::MAX);
    }
    Ok(())
}
