use crate::parse;
use njs_text::Text;
use njs_tree::Item;
use std::test::Fail;

fn is_export(item: &Item) -> bool {
    matches!(item, Item::Export(_, _))
}

fn line_of(item: &Item) -> u32 {
    match item {
        Item::Stmt(statement) => statement.line,
        Item::Export(line, _) => *line,
    }
}

#[test]
fn a_statement_and_an_export_are_read(rt: HostRuntime) -> Result<(), Fail> {
    let script = parse(rt.alloc(), &Text::fixed("a;\nexport default b;"))?;
    let items = script.items.as_slice();
    assert_eq!(rt; items.len(), 2);
    assert!(rt; !is_export(&items[0]));
    assert!(rt; is_export(&items[1]));
    assert_eq!(rt; line_of(&items[0]), 1);
    assert_eq!(rt; line_of(&items[1]), 2);
    Ok(())
}

/// Scripts, and how many items each has (ECMA-262 5.1 §7.9, §12.5).
const ITEMS: &[(&str, usize)] = &[
    ("", 0),
    ("var a = 1, b\n(a)", 2),
    ("var a = 1, b = a\n(a)", 1),
    ("function f() { return\n1; } f();", 2),
    ("a\n++b", 2),
    ("a++\n(b)", 2),
    ("a\n(b)", 1),
    ("a\n/b/c", 1),
    ("if (a) if (b) c; else d", 1),
    ("do a; while (b)\nc", 2),
    ("a: while (b) continue\na", 2),
    (";;", 2),
];

#[test]
fn semicolons_end_statements(rt: HostRuntime) -> Result<(), Fail> {
    for (content, count) in ITEMS {
        let text = Text::from_utf8(rt.alloc(), content.as_bytes())?;
        let script = parse(rt.alloc(), &text)?;
        assert_eq!(rt; script.items.as_slice().len(), *count, "of {content}");
    }
    Ok(())
}
