// Objects and scopes are copied, and stand in a heap that nothing changes.
ghost use Rattle.std.specs.Prelude.{◌≡◌};

use crate::{Copied, Inner, Object, Scope, Shared};
use njs_props::PropMap;
use njs_text::{List, Text};
use njs_value::{Class, Flags, ObjId, Row, ScopeId, Value};
use std::alloc::Global;
use std::test::Fail;

const FIXED: Flags = Flags {
    writable: false,
    enumerable: false,
    configurable: false,
};

// An object with one property, `a` of 1, and an inner part.
fn object(alloc: Global, inner: Inner) -> Result<Object, Fail> {
    let mut props = PropMap::new(alloc);
    props.insert(Text::fixed("a"), Value::Num(1), FIXED)?;
    Ok(Object {
        class: Class::Function,
        prototype: Some(ObjId(0)),
        extensible: false,
        props,
        inner,
    })
}

// A bound function with one argument.
fn bound(alloc: Global) -> Result<Inner, Fail> {
    let mut args = List::new(alloc);
    args.push(Value::Num(7))?;
    Ok(Inner::Bound {
        target: ObjId(0),
        this: Value::Null,
        args,
    })
}

#[test]
fn copies_are_equal(rt: HostRuntime) -> Result<(), Fail> {
    let alloc = rt.alloc();
    let copy = object(alloc, bound(alloc)?)?.copy(alloc)?;
    assert!(rt; copy.class == Class::Function && !copy.extensible);
    assert_eq!(rt; copy.prototype, Some(ObjId(0)));
    assert!(rt; copy.props.get(&Text::fixed("a")) == Some((&Value::Num(1), FIXED)));
    match &copy.inner {
        Inner::Bound { target, this, args } => {
            assert_eq!(rt; (*target, *this), (ObjId(0), Value::Null));
            assert_eq!(rt; args.as_slice(), [Value::Num(7)].as_slice());
        }
        _ => assert!(rt; false),
    }
    match object(alloc, Inner::BuiltIn(Row(3)))?.copy(alloc)?.inner {
        Inner::BuiltIn(row) => assert_eq!(rt; row, Row(3)),
        _ => assert!(rt; false),
    }
    Ok(())
}

#[test]
fn a_shared_heap_has_its_lists(rt: HostRuntime) -> Result<(), Fail> {
    let alloc = rt.alloc();
    assert_eq!(rt; Shared::empty(alloc).sizes(), (0, 0, 0));
    let mut slots = List::new(alloc);
    slots.push(Value::Bool(true))?;
    let scope = Scope {
        parent: Some(ScopeId(0)),
        slots,
    };
    let copy = scope.copy(alloc)?;
    assert_eq!(rt; copy.parent, Some(ScopeId(0)));
    assert_eq!(rt; copy.slots.as_slice(), [Value::Bool(true)].as_slice());
    let mut texts = Vec::new(alloc);
    texts.push(Text::fixed("t"))?;
    let shared = Shared::of(Vec::new(alloc), Vec::new(alloc), texts);
    assert_eq!(rt; shared.sizes(), (0, 0, 1));
    assert_eq!(rt; shared.texts().len(), 1);
    Ok(())
}
