// What the tests of this crate begin with, and how they show what they see.
ghost use Rattle.std.specs.Prelude.{◌≡◌, ◌<◌, true, length};
ghost use Rattle.njs_shared.specs.Heap.{sizes};
ghost use Rattle.njs_shared.specs.Fits.{FitsValue};

use crate::callers::{Answering, Tally};
use crate::{
    Caller, Hint, Stop, first_heap, to_boolean, to_int32, to_number, to_primitive, to_text,
    to_uint32,
};
use njs_clone::Machine;
use njs_shared::{Inner, Shared};
use njs_text::{List, Steps, Text};
use njs_value::{Class, MAX_SAFE, ObjId, Row, Value};
use std::alloc::Global;
use std::process::Abort;
use std::sync::ledger::Ledger;
use std::test::Fail;

// What a test gives to a conversion: a value, or an object with functions or other values as its methods.
#[derive(Clone, Copy)]
pub enum Given {
    Undefined,
    Null,
    Bool(bool),
    Num(i64),
    Str(&'static str),
    Object(Method, Method),
}

// What stands under `valueOf` or `toString`.
#[derive(Clone, Copy, PartialEq, Eq)]
pub enum Method {
    Function,
    Number,
    Missing,
}

#[derive(Clone, Copy)]
pub enum Conversion {
    Any,
    Number,
    Text,
    ToNumber,
    ToText,
    ToInt32,
    ToUint32,
    ToBoolean,
}

// The numbers of the two functions, behind the objects of the first heap.
const VALUE_OF: u32 = 13;

const TO_STRING: u32 = 14;

pub fn fixed(rt: &impl Abort, text: &'static str) -> Text {
    assert!(rt; text.len() <= 32);
    Text::fixed(text)
}

// Whether a machine has what a value names.
fn fits(machine: &Machine<'_>, value: Value) -> bool
    ensures { result ≡ true → FitsValue (sizes machine.now) value }
{
    match value {
        Value::Num(number) => number <= MAX_SAFE && -MAX_SAFE <= number,
        Value::Str(text) => text.0 < machine.sizes().2,
        Value::Obj(object) => object.0 < machine.sizes().0,
        Value::Undefined | Value::Null | Value::Bool(_) => true,
    }
}

pub fn object(rt: &impl Abort, machine: &Machine<'_>, number: u32) -> ObjId
    ensures { result.0 < length machine.now.objects }
{
    assert!(rt; number < machine.sizes().0);
    ObjId(number)
}

fn put<L: Ledger>(
    rt: &impl Abort,
    alloc: Global,
    machine: &mut Machine<'_>,
    number: u32,
    name: &'static str,
    value: Value,
    steps: &mut Steps<L>,
) -> Result<(), Fail> {
    assert!(rt; fits(machine, value));
    let object = object(rt, machine, number);
    let name = fixed(rt, name);
    machine
        .put(alloc, object, &name, value, steps)
        .map_err(|_| "put")?;
    Ok(())
}

fn put_method<L: Ledger>(
    rt: &impl Abort,
    alloc: Global,
    machine: &mut Machine<'_>,
    number: u32,
    name: &'static str,
    function: u32,
    method: Method,
    steps: &mut Steps<L>,
) -> Result<(), Fail> {
    let value = match method {
        Method::Function => Value::Obj(ObjId(function)),
        Method::Number => Value::Num(1),
        Method::Missing => return Ok(()),
    };
    put(rt, alloc, machine, number, name, value, steps)
}

// Adds the two functions and an object with these methods.
fn add_object<L: Ledger>(
    rt: &impl Abort,
    alloc: Global,
    machine: &mut Machine<'_>,
    value_of: Method,
    to_string: Method,
    steps: &mut Steps<L>,
) -> Result<Value, Fail> {
    for row in 0..2 {
        let inner = Inner::BuiltIn(Row(row));
        machine.new_object(alloc, Class::Function, None, inner, steps)?;
    }
    let object = machine.new_object(alloc, Class::Object, None, Inner::Plain, steps)?;
    put_method(
        rt, alloc, machine, object.0, "valueOf", VALUE_OF, value_of, steps,
    )?;
    put_method(
        rt, alloc, machine, object.0, "toString", TO_STRING, to_string, steps,
    )?;
    Ok(Value::Obj(object))
}

fn add<L: Ledger>(
    rt: &impl Abort,
    alloc: Global,
    machine: &mut Machine<'_>,
    given: Given,
    steps: &mut Steps<L>,
) -> Result<Value, Fail> {
    Ok(match given {
        Given::Undefined => Value::Undefined,
        Given::Null => Value::Null,
        Given::Bool(truth) => Value::Bool(truth),
        Given::Num(number) => Value::Num(number),
        Given::Str(text) => Value::Str(machine.add_text(fixed(rt, text))?),
        Given::Object(value_of, to_string) => {
            add_object(rt, alloc, machine, value_of, to_string, steps)?
        }
    })
}

// Whether a value is this text.
pub fn is_text(machine: &Machine<'_>, value: Value, text: &str) -> bool {
    match value {
        Value::Str(id) if id.0 < machine.sizes().2 => machine.text(id).as_str() == text,
        _ => false,
    }
}

// Whether a value is an object with this message.
pub fn has_message(
    rt: &impl Abort,
    machine: &Machine<'_>,
    value: Value,
    message: &'static str,
) -> bool {
    match value {
        Value::Obj(id) if id.0 < machine.sizes().0 => {
            let name = fixed(rt, "message");
            is_text(machine, machine.get(id, &name), message)
        }
        _ => false,
    }
}

// What a conversion is to answer: a value, a text, a throw of an error with a message or of null, or that ticks are spent.
#[derive(Clone, Copy)]
pub enum Wanted {
    Is(Value),
    Text(&'static str),
    Error(&'static str),
    ThrowsNull,
    Fuel,
}

fn is_wanted(
    rt: &impl Abort,
    machine: &Machine<'_>,
    answer: Result<Value, Stop>,
    wanted: Wanted,
) -> bool {
    match wanted {
        Wanted::Is(value) => answer == Ok(value),
        Wanted::ThrowsNull => answer == Err(Stop::Throw(Value::Null)),
        Wanted::Fuel => answer == Err(Stop::Fuel),
        Wanted::Text(text) => match answer {
            Ok(value) => is_text(machine, value, text),
            Err(_) => false,
        },
        Wanted::Error(message) => match answer {
            Err(Stop::Throw(value)) => has_message(rt, machine, value, message),
            _ => false,
        },
    }
}

fn signed(number: i32) -> Value {
    Value::Num(i64::from(number))
}

fn unsigned(number: u32) -> Value {
    Value::Num(i64::from(number))
}

// What a conversion answers, a number as a value.
fn converted<C: Caller<L>, L: Ledger>(
    rt: &impl Abort,
    alloc: Global,
    caller: &mut C,
    machine: &mut Machine<'_>,
    conversion: Conversion,
    value: Value,
    steps: &mut Steps<L>,
) -> Result<Value, Stop>
    requires may { C.may_call caller.old }
    requires fits { C.fits caller.old machine.old }
{
    assert!(rt; machine.sizes().0 >= 13);
    assert!(rt; fits(machine, value));
    match conversion {
        Conversion::Any => to_primitive(alloc, caller, machine, value, Hint::Any, steps),
        Conversion::Number => to_primitive(alloc, caller, machine, value, Hint::Number, steps),
        Conversion::Text => to_primitive(alloc, caller, machine, value, Hint::Text, steps),
        Conversion::ToNumber => { to_number(alloc, caller, machine, value, steps).map(Value::Num) }
        Conversion::ToText => to_text(alloc, caller, machine, value, steps).map(Value::Str),
        Conversion::ToInt32 => to_int32(alloc, caller, machine, value, steps).map(signed),
        Conversion::ToUint32 => to_uint32(alloc, caller, machine, value, steps).map(unsigned),
        Conversion::ToBoolean => Ok(Value::Bool(to_boolean(machine, value))),
    }
}

// Whether a conversion answers this, in a machine of its own that is begun with the first heap.
pub fn answers<C: Caller<L>, L: Ledger>(
    rt: &impl Abort,
    alloc: Global,
    caller: &mut C,
    conversion: Conversion,
    given: Given,
    wanted: Wanted,
    steps: &mut Steps<L>,
) -> Result<bool, Fail>
    requires may { C.may_call caller.old }
    requires fits { (h : _) → C.fits caller.old h }
{
    let shared = Shared::empty(alloc);
    let mut machine = Machine::clone_of(alloc, &shared);
    first_heap(alloc, &mut machine, 1, steps)?;
    let value = add(rt, alloc, &mut machine, given, steps)?;
    let answer = converted(rt, alloc, caller, &mut machine, conversion, value, steps);
    Ok(is_wanted(rt, &machine, answer, wanted))
}

fn tally(alloc: Global) -> Tally {
    Tally {
        calls: 0,
        notes: List::new(alloc),
    }
}

// A caller whose `valueOf` and `toString` give these numbers, or else the object.
pub fn answering(
    alloc: Global,
    left: u64,
    value_of: Option<i32>,
    to_string: Option<i32>,
) -> Answering {
    Answering {
        left,
        at: VALUE_OF,
        first: value_of,
        second: to_string,
        host: tally(alloc),
    }
}
