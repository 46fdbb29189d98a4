// The names are those of ECMA-262 5.1 §15.4, and the orders those in which njs shows the names of an object.
use crate::{PropMap, array_index};
use njs_text::{Text, TextFault};
use njs_value::Flags;
use std::alloc::Global;
use std::test::Fail;

const FULL: Flags = Flags {
    writable: true,
    enumerable: true,
    configurable: true,
};

const FIXED: Flags = Flags {
    writable: false,
    enumerable: false,
    configurable: false,
};

fn text(alloc: Global, text: &str) -> Result<Text, TextFault> {
    Text::from_utf8(alloc, text.as_bytes())
}

#[test]
fn tells_array_indices(rt: HostRuntime) {
    for (name, index) in [
        ("0", Some(0)),
        ("10", Some(10)),
        ("4294967294", Some(4_294_967_294)),
        ("4294967295", None),
        ("42949672940", None),
        ("01", None),
        ("", None),
        ("-1", None),
        ("+1", None),
        ("1.0", None),
        ("length", None),
        ("\u{661}", None),
    ] {
        let name = text(rt.alloc(), name).expect(&rt, "a name");
        assert_eq!(rt; array_index(&name), index);
    }
}

// The properties b, 2, a and 1, created in this order.
fn four(alloc: Global) -> Result<PropMap<u32>, Fail> {
    let mut props = PropMap::new(alloc);
    for (name, value) in [("b", 1), ("2", 2), ("a", 3), ("1", 4)] {
        props.insert(text(alloc, name)?, value, FULL)?;
    }
    Ok(props)
}

// The names in order of creation, and then as a script sees them.
fn shown(alloc: Global, props: &PropMap<u32>) -> Result<String, Fail> {
    let mut shown = String::new(alloc);
    for place in 0..props.len() {
        if let Some((name, _, _)) = props.at(place) {
            shown.push_str(name.as_str())?;
        }
    }
    for name in &props.keys(alloc)? {
        shown.push_str(name.as_str())?;
    }
    Ok(shown)
}

#[test]
fn keeps_the_order_of_creation(rt: HostRuntime) -> Result<(), Fail> {
    let alloc = rt.alloc();
    for (removed, found, order) in [
        ("c", false, "b2a112ba"),
        ("2", true, "ba11ba"),
        ("b", true, "2a112a"),
    ] {
        let mut props = four(alloc)?;
        assert_eq!(rt; props.remove(&text(alloc, removed)?), found);
        assert_eq!(rt; shown(alloc, &props)?.as_str(), order);
    }
    Ok(())
}

#[test]
fn writes_in_place(rt: HostRuntime) -> Result<(), Fail> {
    let alloc = rt.alloc();
    let two = text(alloc, "2")?;
    let mut props = four(alloc)?;
    props.insert(text(alloc, "2")?, 5, FIXED)?;
    assert!(rt; props.set_value(&two, 6));
    let mut props = props.copy(alloc)?;
    assert!(rt; props.get(&two) == Some((&6, FIXED)));
    assert!(rt; props.set_flags(&two, FULL));
    assert!(rt; props.get(&two) == Some((&6, FULL)));
    assert_eq!(rt; shown(alloc, &props)?.as_str(), "b2a112ba");
    props.keep_below(2);
    assert!(rt; !props.set_flags(&two, FIXED));
    assert!(rt; props.at(3).is_none());
    Ok(())
}
