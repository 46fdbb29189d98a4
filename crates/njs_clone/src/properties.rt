// What is done with the properties of one object.
ghost use Rattle.std.specs.Prelude.{◌≡◌, OnOk, OnErr, IfOk, is_some};
ghost use Rattle.njs_props.specs.Props.{property};
ghost use Rattle.njs_meaning.specs.Properties as spec;
ghost use Rattle.njs_meaning.specs.Properties.{put_refusal, with_put, delete};
ghost use Rattle.njs_meaning.specs.Objects.{put};
ghost use Rattle.njs_meaning.specs.Objects as objects;
ghost use Rattle.njs_clone.specs.Content.{stored, written};
ghost use Rattle.njs_clone.specs.Gives.{LeavesObject};

use crate::arrays::{length_text, put_in_array};
use njs_props::PropMap;
use njs_shared::Object;
use njs_text::{NoMemory, Text};
use njs_value::{Cause, Class, Flags, Value};
use std::alloc::Global;

const ALL_FLAGS: Flags = Flags {
    writable: true,
    enumerable: true,
    configurable: true,
};

const ONLY_WRITABLE: Flags = Flags {
    writable: true,
    enumerable: false,
    configurable: false,
};

// The flags of the property of a name.
pub(crate) fn flags_of(props: &PropMap<Value>, name: &Text) -> Option<Flags>
    ensures { result ≡ spec.flags_of name.now props.now }
{
    let (_, flags) = props.get(name)?;
    Some(flags)
}

// Gives a property its value. A new one has all flags.
pub(crate) fn put_value(
    alloc: Global,
    props: &mut PropMap<Value>,
    name: &Text,
    value: Value,
) -> Result<(), NoMemory>
    ensures ok { OnOk result (props.new ≡ with_put name.now value props.old) }
    ensures err { OnErr result (props.new ≡ props.old) }
{
    if props.set_value(name, value) {
        return Ok(());
    }
    props.insert(name.copy(alloc)?, value, ALL_FLAGS)
}

// Why a put is refused, if it is.
fn refusal_of_put(nearest: Option<Flags>, own: bool, extensible: bool) -> Option<Cause>
    ensures { result ≡ put_refusal nearest own extensible }
{
    match nearest {
        None if !extensible => Some(Cause::NotExtensible),
        None => None,
        Some(flags) if !flags.writable => Some(Cause::ReadOnly),
        Some(_) if !own && !extensible => Some(Cause::NotExtensible),
        Some(_) => None,
    }
}

// Puts a value that gives this length of an array, where the nearest property of the name has these flags.
pub(crate) fn put_with(
    alloc: Global,
    object: &mut Object,
    length: Option<u32>,
    nearest: Option<Flags>,
    name: &Text,
    value: Value,
) -> Result<Option<Cause>, NoMemory>
    ensures ok { IfOk result (LeavesObject (put stored written length object.old.class object.old.extensible nearest name.now value object.old.props) object.old object.new) }
    ensures err { OnErr result (object.new ≡ object.old) }
{
    let own = object.props.get(name).is_some();
    if let Some(cause) = refusal_of_put(nearest, own, object.extensible) {
        return Ok(Some(cause));
    }
    if object.class == Class::Array {
        put_in_array(alloc, &mut object.props, length, name, value)
    } else {
        put_value(alloc, &mut object.props, name, value)?;
        Ok(None)
    }
}

// Deletes a property.
pub(crate) fn delete_from(object: &mut Object, name: &Text) -> Option<Cause>
    ensures { LeavesObject (delete name.now object.old.props) object.old object.new result }
{
    let flags = flags_of(&object.props, name)?;
    if !flags.configurable {
        return Some(Cause::NotConfigurable);
    }
    object.props.remove(name);
    None
}

// The properties that a new object has.
pub(crate) fn first_props(alloc: Global, class: Class) -> Result<PropMap<Value>, NoMemory>
    ensures { IfOk result (λ props. props ≡ objects.first_props written class) }
{
    let mut props = PropMap::new(alloc);
    if class == Class::Array {
        props.insert(length_text(), Value::Num(0), ONLY_WRITABLE)?;
    }
    Ok(props)
}
