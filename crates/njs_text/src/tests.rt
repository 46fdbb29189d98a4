// Texts that were written down elsewhere: Unicode's examples of UTF-8, and those of Rust's `String::from_utf8_lossy`.
use crate::{List, Text, TextFault};
use std::alloc::Global;
use std::cmp::Ordering;
use std::collections::HashMap;
use std::test::Fail;

fn text(alloc: Global, text: &str) -> Result<Text, TextFault> {
    Text::from_utf8(alloc, text.as_bytes())
}

#[test]
fn reads_bytes(rt: HostRuntime) -> Result<(), Fail> {
    let alloc = rt.alloc();
    let bytes: &[u8] = b"a\xc3\xa9\xe3\x81\x82\xf0\x9f\x98\x80";
    let mixed = Text::from_utf8(alloc, bytes).expect(&rt, "a text");
    assert_eq!(rt; mixed.as_bytes(), bytes);
    assert_eq!(rt; mixed.len(), 4);
    let values = [
        Some('a'),
        Some('\u{e9}'),
        Some('\u{3042}'),
        Some('\u{1f600}'),
        None,
    ];
    for (place, value) in values.into_iter().enumerate() {
        assert_eq!(rt; mixed.at(place), value);
    }
    let refused: [(&[u8], usize); 3] = [
        (b"a\xffb", 1),
        (b"\xe3\x81\x82\xe3\x81", 3),
        (b"\xc3\xa9\xed\xa0\x80", 2),
    ];
    for (bytes, place) in refused {
        assert_eq!(rt;
            Text::from_utf8(alloc, bytes),
            Err(TextFault::NotUtf8(place))
        );
    }
    let mended: [(&[u8], &str); 4] = [
        (b"a\xffb", "a\u{fffd}b"),
        (b"Hello \xf0\x90\x80World", "Hello \u{fffd}World"),
        (b"a\xe3\x81", "a\u{fffd}"),
        (bytes, "a\u{e9}\u{3042}\u{1f600}"),
    ];
    for (bytes, want) in mended {
        assert_eq!(rt; Text::from_lossy(alloc, bytes), text(alloc, want));
    }
    Ok(())
}

// What threads may share.
fn is_shared<T: Send + Sync>(_: &T) {}

#[test]
fn works_on_texts(rt: HostRuntime) -> Result<(), Fail> {
    let alloc = rt.alloc();
    let mixed = text(alloc, "aé\u{3042}\u{1f600}").expect(&rt, "a text");
    assert!(rt; mixed.len() == 4);
    let front = Text::fixed("aé");
    is_shared(&front);
    assert_eq!(rt; mixed.slice(alloc, 0, 2)?, front.copy(alloc)?);
    let back = mixed.slice(alloc, 2, 4)?;
    assert_eq!(rt; back.as_str(), "\u{3042}\u{1f600}");
    assert_eq!(rt; front.join(alloc, &back).expect(&rt, "a text"), mixed);
    let values = mixed.to_chars(alloc)?;
    assert_eq!(rt;
        Text::from_chars(alloc, &values).expect(&rt, "a text"),
        mixed
    );
    // by UTF-16 units the second would come first
    assert_eq!(rt;
        Text::fixed("\u{ff61}").compare(&Text::fixed("\u{10000}")),
        Ordering::Less
    );
    Ok(())
}

#[test]
fn finds_texts(rt: HostRuntime) -> Result<(), Fail> {
    let alloc = rt.alloc();
    let whole = Text::fixed("aé\u{3042}\u{1f600}aé");
    for (part, from, place) in [
        ("aé", 0, Some(0)),
        ("aé", 1, Some(4)),
        ("aé", 5, None),
        ("", 6, Some(6)),
        ("", 7, None),
    ] {
        let part = text(alloc, part).expect(&rt, "a text");
        assert_eq!(rt; whole.index_of(&part, from), place);
    }
    let mut numbers = HashMap::new(alloc);
    numbers.insert(Text::fixed("length"), 15)?;
    let name = text(alloc, "length").expect(&rt, "a text");
    assert_eq!(rt; numbers.get(&name), Some(&15));
    let mut list = List::new(alloc);
    list.push('a')?;
    assert_eq!(rt; list.len(), 1);
    Ok(())
}

#[test]
fn refuses_the_longest(rt: HostRuntime) -> Result<(), Fail> {
    let alloc = rt.alloc();
    let bytes = vec![in alloc; b'a'; 1_048_577]?;
    assert_eq!(rt; Text::from_utf8(alloc, &bytes), Err(TextFault::TooLong));
    assert_eq!(rt; Text::from_lossy(alloc, &bytes), Err(TextFault::TooLong));
    let longest = Text::from_utf8(alloc, &bytes[1..]).expect(&rt, "the longest text");
    assert_eq!(rt; longest.len(), 1_048_576);
    assert_eq!(rt;
        longest.join(alloc, &Text::fixed("a")),
        Err(TextFault::TooLong)
    );
    Ok(())
}
