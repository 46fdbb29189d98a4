// Words that are names, and words that aren't (ECMA-262 5.1 §7.6).
use super::*;
use njs_text::{NoMemory, Text};
use std::alloc::Global;
use std::test::Fail;

const NAMES: &[&str] = &["a", "$", "_9z", "eval", "Break", "breaks"];

const NO_NAMES: &[&str] = &[
    "", "9a", "a b", "\u{e9}", "a\u{e9}", "break", "yield", "let", "false",
];

fn text(alloc: Global, content: &str) -> Result<Text, NoMemory> {
    match Text::from_utf8(alloc, content.as_bytes()) {
        Ok(text) => Ok(text),
        Err(_) => Err(NoMemory),
    }
}

#[test]
fn names_are_told(rt: HostRuntime) -> Result<(), Fail> {
    for word in NAMES {
        assert!(rt; is_name(&text(rt.alloc(), word)?), "{word}");
    }
    for word in NO_NAMES {
        assert!(rt; !is_name(&text(rt.alloc(), word)?), "{word}");
    }
    Ok(())
}
