// How a property of one object is defined.
ghost use Rattle.std.specs.Prelude.{◌≡◌, OnOk, OnErr, IfOk};
ghost use Rattle.njs_value.specs.declared.Value.TheVariants.{Undefined};
ghost use Rattle.njs_props.specs.Props.{property};
ghost use Rattle.njs_meaning.specs.Properties as spec;
ghost use Rattle.njs_meaning.specs.Properties.{define_refusal};
ghost use Rattle.njs_meaning.specs.Arrays as arrays;
ghost use Rattle.njs_meaning.specs.Arrays.{with_given_flags};
ghost use Rattle.njs_meaning.specs.Objects as objects;
ghost use Rattle.njs_clone.specs.Content.{stored, written};
ghost use Rattle.njs_clone.specs.Gives.{Leaves, LeavesObject};

use crate::arrays::{has_fixed_length, length_in, length_text, lengthen, set_length};
use crate::properties::flags_of;
use njs_props::{PropMap, Property, array_index};
use njs_shared::Object;
use njs_text::{NoMemory, Text};
use njs_value::{Cause, Class, Desc, Flags, Value};
use std::alloc::Global;

// What a definition goes by, beside the properties: whether the object is extensible, whether the given value is another
// than the one there, the name, the descriptor, and the length that its value gives an array.
#[derive(Drop)]
pub(crate) struct Definition<'a> {
    pub extensible: bool,
    pub other: bool,
    pub name: &'a Text,
    pub desc: &'a Desc,
    pub length: Option<u32>,
}

// Whether a definition asks for a flag.
fn asks(given: Option<bool>) -> bool
    ensures { result ≡ spec.asks given }
{
    given.unwrap_or(false)
}

// Whether a definition gives another flag than the one there.
fn differs(given: Option<bool>, flag: bool) -> bool
    ensures { result ≡ spec.differs given flag }
{
    match given {
        None => false,
        Some(given) => given != flag,
    }
}

// Why a definition is refused, if it is.
fn refusal_of_define(
    extensible: bool,
    present: Option<Flags>,
    desc: &Desc,
    other: bool,
) -> Option<Cause>
    ensures { result ≡ define_refusal extensible present desc.now other }
{
    let Some(flags) = present else {
        return if extensible {
            None
        } else {
            Some(Cause::NotExtensible)
        };
    };
    if flags.configurable {
        return None;
    }
    let fixed = !flags.writable && (asks(desc.writable) || other);
    if asks(desc.configurable) || differs(desc.enumerable, flags.enumerable) || fixed {
        Some(Cause::NotConfigurable)
    } else {
        None
    }
}

// The flags of a present property, with those that are given.
fn changed_flags(desc: &Desc, flags: Flags) -> Flags
    ensures { result ≡ spec.changed_flags desc.now flags }
{
    Flags {
        writable: desc.writable.unwrap_or(flags.writable),
        enumerable: desc.enumerable.unwrap_or(flags.enumerable),
        configurable: desc.configurable.unwrap_or(flags.configurable),
    }
}

// The property that a definition makes or changes.
fn defined(props: &PropMap<Value>, name: &Text, desc: &Desc) -> Property<Value>
    ensures { result ≡ spec.defined Undefined desc.now (property name.now props.now) }
{
    match props.get(name) {
        None => Property {
            value: desc.value.unwrap_or(Value::Undefined),
            flags: Flags {
                writable: asks(desc.writable),
                enumerable: asks(desc.enumerable),
                configurable: asks(desc.configurable),
            },
        },
        Some((value, flags)) => Property {
            value: desc.value.unwrap_or(*value),
            flags: changed_flags(desc, flags),
        },
    }
}

// Makes or changes a property as it is defined.
fn with_defined(
    alloc: Global,
    props: &mut PropMap<Value>,
    name: &Text,
    desc: &Desc,
) -> Result<(), NoMemory>
    ensures ok { OnOk result (props.new ≡ spec.with_defined Undefined name.now desc.now props.old) }
    ensures err { OnErr result (props.new ≡ props.old) }
{
    let defined = defined(props, name, desc);
    props.insert(name.copy(alloc)?, defined.value, defined.flags)
}

// Defines a property by the ordinary rules.
fn define_plain(
    alloc: Global,
    props: &mut PropMap<Value>,
    by: &Definition<'_>,
) -> Result<Option<Cause>, NoMemory>
    ensures ok { IfOk result (Leaves (spec.define_plain Undefined by.now.extensible by.now.other by.now.name.now by.now.desc.now props.old) props.new) }
    ensures err { OnErr result (props.new ≡ props.old) }
{
    let present = flags_of(props, by.name);
    if let Some(cause) = refusal_of_define(by.extensible, present, by.desc, by.other) {
        return Ok(Some(cause));
    }
    with_defined(alloc, props, by.name, by.desc)?;
    Ok(None)
}

// Defines an element at or past the length of an array, which grows.
fn define_past(
    alloc: Global,
    props: &mut PropMap<Value>,
    by: &Definition<'_>,
    index: u32,
) -> Result<Option<Cause>, NoMemory>
    ensures ok { IfOk result (Leaves (arrays.define_past stored written Undefined by.now.extensible by.now.other by.now.name.now index by.now.desc.now props.old) props.new) }
    ensures err { OnErr result (props.new ≡ props.old) }
{
    let present = flags_of(props, by.name);
    if let Some(cause) = refusal_of_define(by.extensible, present, by.desc, by.other) {
        return Ok(Some(cause));
    }
    with_defined(alloc, props, by.name, by.desc)?;
    lengthen(props, index);
    Ok(None)
}

// Defines an element of an array.
fn define_element(
    alloc: Global,
    props: &mut PropMap<Value>,
    by: &Definition<'_>,
    index: u32,
) -> Result<Option<Cause>, NoMemory>
    ensures ok { IfOk result (Leaves (arrays.define_element stored written Undefined by.now.extensible by.now.other by.now.name.now index by.now.desc.now props.old) props.new) }
    ensures err { OnErr result (props.new ≡ props.old) }
{
    if index < length_in(props) {
        return define_plain(alloc, props, by);
    }
    if has_fixed_length(props) {
        return Ok(Some(Cause::ReadOnly));
    }
    define_past(alloc, props, by, index)
}

// Gives a property the flags that are given.
fn set_given_flags(props: &mut PropMap<Value>, name: &Text, desc: &Desc)
    ensures { props.new ≡ (with_given_flags name.now desc.now (spec.done props.old)).props }
{
    if let Some(flags) = flags_of(props, name) {
        props.set_flags(name, changed_flags(desc, flags));
    }
}

// Defines the length of an array by a value.
fn define_length_value(props: &mut PropMap<Value>, by: &Definition<'_>) -> Option<Cause>
    ensures { Leaves (arrays.define_length_value stored written Undefined by.now.extensible by.now.other by.now.length by.now.name.now by.now.desc.now props.old) props.new result }
{
    let present = flags_of(props, by.name);
    if let Some(cause) = refusal_of_define(by.extensible, present, by.desc, by.other) {
        return Some(cause);
    }
    let Some(length) = by.length else {
        return Some(Cause::BadLength);
    };
    if let Some(cause) = set_length(props, length) {
        return Some(cause);
    }
    set_given_flags(props, by.name, by.desc);
    None
}

// Defines the length of an array.
fn define_length(
    alloc: Global,
    props: &mut PropMap<Value>,
    by: &Definition<'_>,
) -> Result<Option<Cause>, NoMemory>
    ensures ok { IfOk result (Leaves (arrays.define_length stored written Undefined by.now.extensible by.now.other by.now.length by.now.name.now by.now.desc.now props.old) props.new) }
    ensures err { OnErr result (props.new ≡ props.old) }
{
    match by.desc.value {
        None => define_plain(alloc, props, by),
        Some(_) => Ok(define_length_value(props, by)),
    }
}

// Defines a property of an array.
fn define_in_array(
    alloc: Global,
    props: &mut PropMap<Value>,
    by: &Definition<'_>,
) -> Result<Option<Cause>, NoMemory>
    ensures ok { IfOk result (Leaves (arrays.define_in_array stored written Undefined by.now.extensible by.now.other by.now.length by.now.name.now by.now.desc.now props.old) props.new) }
    ensures err { OnErr result (props.new ≡ props.old) }
{
    if *by.name == length_text() {
        return define_length(alloc, props, by);
    }
    match array_index(by.name) {
        None => define_plain(alloc, props, by),
        Some(index) => define_element(alloc, props, by, index),
    }
}

// Defines a property of an object.
pub(crate) fn define_with(
    alloc: Global,
    object: &mut Object,
    other: bool,
    length: Option<u32>,
    name: &Text,
    desc: &Desc,
) -> Result<Option<Cause>, NoMemory>
    ensures ok { IfOk result (LeavesObject (objects.define stored written Undefined length other object.old.class object.old.extensible name.now desc.now object.old.props) object.old object.new) }
    ensures err { OnErr result (object.new ≡ object.old) }
{
    let by = Definition {
        extensible: object.extensible,
        other,
        name,
        desc,
        length,
    };
    if object.class == Class::Array {
        define_in_array(alloc, &mut object.props, &by)
    } else {
        define_plain(alloc, &mut object.props, &by)
    }
}
