// Errors that are thrown (ECMA-262 5.1 §15.11).
ghost use Rattle.std.specs.Prelude.{◌≡◌, ◌≤◌, ◌<◌, ◌+◌, ◌++◌, [], List, ℕ, length, take, codes, IfOk, OnOk, OnErr};
ghost use Rattle.njs_shared.specs.Heap.{sizes};
ghost use Rattle.njs_meaning.specs.Errors.{first_count, prototype_of, name_of, message_of, named_message};
ghost use Rattle.njs_convert.specs.Tells.{text_at, message_props, FitsCause, Extends, MadeError, ThrowsError, CountsError};

use crate::Stop;
use njs_clone::Machine;
use njs_meaning::Prototype;
use njs_props::PropMap;
use njs_shared::Inner;
use njs_text::{NoMemory, Steps, Text};
use njs_value::{Cause, Class, Flags, ObjId, TextId, Value};
use std::alloc::Global;
use std::sync::ledger::Ledger;

// Of a property that can be written and configured, and isn't enumerable.
pub(crate) const HIDDEN: Flags = Flags {
    writable: true,
    enumerable: false,
    configurable: true,
};

fn prototype_of(cause: Cause) -> Prototype
    ensures { result ≡ prototype_of cause }
{
    match cause {
        Cause::NotDefined(_) => Prototype::ReferenceError,
        Cause::OutOfRange
        | Cause::Fraction
        | Cause::DivideByZero
        | Cause::NotNumber
        | Cause::CallDepth
        | Cause::TextTooLong
        | Cause::BadLength
        | Cause::BadArgument
        | Cause::TooNested => Prototype::RangeError,
        Cause::BadJson => Prototype::SyntaxError,
        Cause::BadUri => Prototype::UriError,
        Cause::NoRoom => Prototype::SharedMemoryError,
        Cause::NotFunction
        | Cause::NotConstructor
        | Cause::NullBase
        | Cause::NotObject
        | Cause::ReadOnly
        | Cause::NotExtensible
        | Cause::NotConfigurable
        | Cause::WrongReceiver
        | Cause::WrongArgument
        | Cause::NoPrimitive
        | Cause::Circular
        | Cause::EmptyReduce
        | Cause::ResponseState
        | Cause::BadField => Prototype::TypeError,
    }
}

fn name_of(cause: Cause) -> Option<TextId>
    ensures { result ≡ name_of cause }
{
    match cause {
        Cause::NotDefined(name) => Some(name),
        _ => None,
    }
}

// The message of a cause that holds no name.
fn plain_message(cause: Cause) -> Text
    ensures { result ≡ message_of (λ name. []) cause }
{
    match cause {
        Cause::NotDefined(_) => Text::fixed("\"\" is not defined"),
        Cause::NotFunction => Text::fixed("not a function"),
        Cause::NotConstructor => Text::fixed("not a constructor"),
        Cause::NullBase => Text::fixed("no properties"),
        Cause::NotObject => Text::fixed("not an object"),
        Cause::ReadOnly => Text::fixed("read-only"),
        Cause::NotExtensible => Text::fixed("not extensible"),
        Cause::NotConfigurable => Text::fixed("not configurable"),
        Cause::WrongReceiver => Text::fixed("wrong receiver"),
        Cause::WrongArgument => Text::fixed("wrong argument"),
        Cause::NoPrimitive => Text::fixed("no primitive value"),
        Cause::Circular => Text::fixed("circular"),
        Cause::EmptyReduce => Text::fixed("empty"),
        Cause::ResponseState => Text::fixed("response state"),
        Cause::BadField => Text::fixed("header field"),
        Cause::OutOfRange => Text::fixed("out of range"),
        Cause::Fraction => Text::fixed("fraction"),
        Cause::DivideByZero => Text::fixed("division by zero"),
        Cause::NotNumber => Text::fixed("not a number"),
        Cause::CallDepth => Text::fixed("call depth"),
        Cause::TextTooLong => Text::fixed("text too long"),
        Cause::BadLength => Text::fixed("array length"),
        Cause::BadArgument => Text::fixed("argument range"),
        Cause::TooNested => Text::fixed("nesting"),
        Cause::BadJson => Text::fixed("bad JSON"),
        Cause::BadUri => Text::fixed("bad URI"),
        Cause::NoRoom => Text::fixed("no room"),
    }
}

fn joined(alloc: Global, first: &Text, second: &Text) -> Result<Text, NoMemory>
    ensures { IfOk result (λ text. text ≡ first.now ++ second.now) }
{
    match first.join(alloc, second) {
        Ok(text) => Ok(text),
        Err(_) => Err(NoMemory),
    }
}

fn opening() -> Text
    ensures { result ≡ codes "\"" }
{
    Text::fixed("\"")
}

fn closing() -> Text
    ensures { result ≡ codes "\" is not defined" }
{
    Text::fixed("\" is not defined")
}

// The front of a name.
fn front(alloc: Global, name: &Text) -> Result<Text, NoMemory>
    ensures { IfOk result (λ text. text ≡ take 1048000 name.now) }
{
    name.slice(alloc, 0, name.len().min(1_048_000))
}

// The message of `NotDefined`, in which a long name is cut, so that it is a text.
fn named_message(alloc: Global, name: &Text) -> Result<Text, NoMemory>
    ensures { IfOk result (λ text. text ≡ named_message name.now) }
{
    let shown = front(alloc, name)?;
    let opened = joined(alloc, &opening(), &shown)?;
    joined(alloc, &opened, &closing())
}

fn message_of(alloc: Global, machine: &Machine<'_>, cause: Cause) -> Result<Text, NoMemory>
    requires { FitsCause (sizes machine.now) cause }
    ensures { IfOk result (λ text. text ≡ message_of (text_at machine.now.texts) cause) }
{
    match name_of(cause) {
        Some(name) => named_message(alloc, machine.text(name)),
        None => Ok(plain_message(cause)),
    }
}

// The properties of an error with a message.
fn message_props(alloc: Global, message: TextId) -> Result<PropMap<Value>, NoMemory>
    ensures { IfOk result (λ props. props ≡ message_props (Value.Str message)) }
{
    let mut props = PropMap::new(alloc);
    props.insert(message_name(), Value::Str(message), HIDDEN)?;
    Ok(props)
}

// The name `message`. It takes no memory.
pub(crate) fn message_name() -> Text
    ensures { result ≡ codes "message" }
{
    Text::fixed("message")
}

fn error_object<L: Ledger>(
    alloc: Global,
    machine: &mut Machine<'_>,
    cause: Cause,
    steps: &mut Steps<L>,
) -> Result<ObjId, NoMemory>
    requires first { first_count ≤ length machine.old.objects }
    requires cause { FitsCause (sizes machine.old) cause }
    ensures made { IfOk result (λ object. MadeError cause machine.old machine.new object.0) }
    ensures extends { Extends machine.old machine.new }
    ensures cell { OnOk result (steps.new ≡ steps.old + 1) }
    ensures no_cell { OnErr result (steps.new ≡ steps.old) }
{
    let _sizes = machine.sizes();
    let message = message_of(alloc, machine, cause)?;
    let text = machine.add_text(message)?;
    let props = message_props(alloc, text)?;
    let up = ObjId(prototype_of(cause).place());
    let object = machine.new_object_with(Class::Error, Some(up), props, Inner::Plain, steps)?;
    Ok(object)
}

/// Makes the error of a cause: an object of class Error, with the prototype of the cause's type and its message. The
/// answer is a throw of that object, which counts one step, or want of memory, which counts none.
pub fn throw<L: Ledger>(
    alloc: Global,
    machine: &mut Machine<'_>,
    cause: Cause,
    steps: &mut Steps<L>,
) -> Stop
    requires first { first_count ≤ length machine.old.objects }
    requires cause { FitsCause (sizes machine.old) cause }
    ensures throws { ThrowsError cause machine.old machine.new result }
    ensures extends { Extends machine.old machine.new }
    ensures steps { CountsError steps.old steps.new result }
{
    match error_object(alloc, machine, cause, steps) {
        Ok(object) => Stop::Throw(Value::Obj(object)),
        Err(_) => Stop::NoMemory,
    }
}
