// Members are those of ECMA-262 5.1 §8.7, §8.12, §11.4.1, §11.8.6, §12.6.4 and §15.5.5, over the prototypes of §15.
ghost use Rattle.std.specs.Prelude.{◌≡◌, ◌<◌, true, length};
ghost use Rattle.njs_shared.specs.Heap.{sizes};
ghost use Rattle.njs_shared.specs.Fits.{FitsValue};

use crate::{
    delete_member, get_member, has_member, has_members, instance_of, is_callable, is_same,
    names_in, put_member,
};
use njs_clone::Machine;
use njs_shared::{Inner, Shared};
use njs_text::{List, NoMemory, Steps, Text};
use njs_value::{Cause, Class, Desc, HeapStop, MAX_SAFE, ObjId, Row, TextId, Value};
use std::alloc::Global;
use std::marker::Brand;
use std::process::Abort;
use std::sync::ledger::{Blank, Ledger};
use std::test::Fail;

// A value, whose text becomes a new one of the machine.
#[derive(Clone, Copy)]
enum Given {
    Undefined,
    Null,
    Bool(bool),
    Num(i64),
    Str(&'static str),
    Obj(u32),
}

type Answer = Result<(), HeapStop>;

const DONE: Answer = Ok(());

const NOT_OBJECT: Answer = Err(HeapStop::Throw(Cause::NotObject));

const READ_ONLY: Answer = Err(HeapStop::Throw(Cause::ReadOnly));

const NOT_CONFIGURABLE: Answer = Err(HeapStop::Throw(Cause::NotConfigurable));

// What a test does with a machine that begins with the thirteen prototypes, and what it must see.
#[derive(Clone, Copy)]
enum Act {
    // An object with this prototype.
    New(u32),
    Function,
    Bound(u32),
    // A property that can be neither written, listed nor deleted.
    Fix(u32, &'static str, i64),
    Put(Given, &'static str, Given, Answer),
    Delete(Given, &'static str, Answer),
    Get(Given, &'static str, Given),
    Has(Given, &'static str, bool),
    // The names, each followed by a comma.
    Names(Given, &'static str),
    Instance(Given, Given, Result<bool, Cause>),
    Same(Given, Given, bool),
    // Whether a value has members, and whether it can be called.
    Is(Given, bool, bool),
}

fn text(rt: &impl Abort, text: &'static str) -> Text {
    assert!(rt; text.len() <= 32);
    Text::fixed(text)
}

fn object(rt: &impl Abort, machine: &Machine<'_>, number: u32) -> ObjId
    ensures { result.0 < length machine.now.objects }
{
    assert!(rt; number < machine.sizes().0);
    ObjId(number)
}

// Whether a machine has what a value names.
fn fits(machine: &Machine<'_>, value: Value) -> bool
    ensures { result ≡ true → FitsValue (sizes machine.now) value }
{
    match value {
        Value::Num(number) => number <= MAX_SAFE && -MAX_SAFE <= number,
        Value::Str(text) => text.0 < machine.sizes().2,
        Value::Obj(object) => object.0 < machine.sizes().0,
        Value::Undefined | Value::Null | Value::Bool(_) => true,
    }
}

fn add_text(
    rt: &impl Abort,
    machine: &mut Machine<'_>,
    given: &'static str,
) -> Result<TextId, NoMemory> {
    machine.add_text(text(rt, given))
}

fn add(rt: &impl Abort, machine: &mut Machine<'_>, given: Given) -> Result<Value, NoMemory> {
    Ok(match given {
        Given::Undefined => Value::Undefined,
        Given::Null => Value::Null,
        Given::Bool(truth) => Value::Bool(truth),
        Given::Num(number) => Value::Num(number),
        Given::Str(text) => Value::Str(add_text(rt, machine, text)?),
        Given::Obj(number) => Value::Obj(ObjId(number)),
    })
}

fn same(rt: &impl Abort, machine: &Machine<'_>, left: Value, right: Value) -> bool {
    assert!(rt; fits(machine, left));
    assert!(rt; fits(machine, right));
    is_same(machine, left, right)
}

// Defines a property that nothing changes any more.
fn fix<L: Ledger>(
    rt: &impl Abort,
    alloc: Global,
    machine: &mut Machine<'_>,
    number: u32,
    name: &'static str,
    value: Value,
    steps: &mut Steps<L>,
) -> Answer {
    let object = object(rt, machine, number);
    let name = text(rt, name);
    assert!(rt; fits(machine, value));
    let desc = Desc {
        value: Some(value),
        writable: None,
        enumerable: None,
        configurable: None,
    };
    machine.define(alloc, object, &name, desc, steps)
}

fn put<L: Ledger>(
    rt: &impl Abort,
    alloc: Global,
    machine: &mut Machine<'_>,
    base: Given,
    name: &'static str,
    value: Given,
    steps: &mut Steps<L>,
) -> Answer {
    let Ok(base) = add(rt, machine, base) else {
        return Err(HeapStop::NoMemory);
    };
    let Ok(name) = add_text(rt, machine, name) else {
        return Err(HeapStop::NoMemory);
    };
    let Ok(value) = add(rt, machine, value) else {
        return Err(HeapStop::NoMemory);
    };
    assert!(rt; fits(machine, base));
    assert!(rt; name.0 < machine.sizes().2);
    assert!(rt; fits(machine, value));
    put_member(alloc, machine, base, name, value, steps)
}

fn delete<L: Ledger>(
    rt: &impl Abort,
    alloc: Global,
    machine: &mut Machine<'_>,
    base: Given,
    name: &'static str,
    steps: &mut Steps<L>,
) -> Answer {
    let Ok(base) = add(rt, machine, base) else {
        return Err(HeapStop::NoMemory);
    };
    let Ok(name) = add_text(rt, machine, name) else {
        return Err(HeapStop::NoMemory);
    };
    assert!(rt; fits(machine, base));
    assert!(rt; name.0 < machine.sizes().2);
    delete_member(alloc, machine, base, name, steps)
}

fn get(
    rt: &impl Abort,
    alloc: Global,
    machine: &mut Machine<'_>,
    base: Given,
    name: &'static str,
) -> Result<Value, NoMemory> {
    let base = add(rt, machine, base)?;
    let name = add_text(rt, machine, name)?;
    assert!(rt; machine.sizes().0 >= 13);
    assert!(rt; fits(machine, base));
    assert!(rt; name.0 < machine.sizes().2);
    get_member(alloc, machine, base, name)
}

fn has(rt: &impl Abort, machine: &Machine<'_>, base: Value, name: &'static str) -> bool {
    assert!(rt; machine.sizes().0 >= 13);
    assert!(rt; fits(machine, base));
    has_member(machine, base, &text(rt, name))
}

fn names(
    rt: &impl Abort,
    alloc: Global,
    machine: &Machine<'_>,
    base: Value,
) -> Result<String, Fail> {
    assert!(rt; machine.sizes().0 >= 13);
    assert!(rt; fits(machine, base));
    let mut shown = String::new(alloc);
    for name in names_in(alloc, machine, base)?.as_slice() {
        shown.push_str(name.as_str())?;
        shown.push(',')?;
    }
    Ok(shown)
}

fn instance(
    rt: &impl Abort,
    machine: &Machine<'_>,
    left: Value,
    right: Value,
) -> Result<bool, Cause> {
    assert!(rt; fits(machine, left));
    assert!(rt; fits(machine, right));
    instance_of(machine, left, right)
}

fn callable(rt: &impl Abort, machine: &Machine<'_>, value: Value) -> bool {
    assert!(rt; fits(machine, value));
    is_callable(machine, value)
}

// Makes an object: with a prototype, or a function, or one that is bound to another.
fn make<L: Ledger>(
    rt: &impl Abort,
    alloc: Global,
    machine: &mut Machine<'_>,
    next: Act,
    steps: &mut Steps<L>,
) -> Result<(), NoMemory> {
    match next {
        Act::New(number) => {
            let up = object(rt, machine, number);
            machine.new_object(alloc, Class::Object, Some(up), Inner::Plain, steps)?;
        }
        Act::Function => {
            let inner = Inner::BuiltIn(Row(0));
            machine.new_object(alloc, Class::Function, None, inner, steps)?;
        }
        Act::Bound(number) => {
            let inner = Inner::Bound {
                target: object(rt, machine, number),
                this: Value::Undefined,
                args: List::new(alloc),
            };
            machine.new_object(alloc, Class::Function, None, inner, steps)?;
        }
        _ => {}
    }
    Ok(())
}

fn ask(rt: &impl Abort, alloc: Global, machine: &mut Machine<'_>, next: Act) -> Result<(), Fail> {
    match next {
        Act::Get(base, name, wanted) => {
            let wanted = add(rt, machine, wanted)?;
            let value = get(rt, alloc, machine, base, name)?;
            assert!(rt; same(rt, machine, value, wanted), "get of {name}");
        }
        Act::Has(base, name, wanted) => {
            let base = add(rt, machine, base)?;
            assert_eq!(rt; has(rt, machine, base, name), wanted, "has {name}");
        }
        Act::Names(base, wanted) => {
            let base = add(rt, machine, base)?;
            assert_eq!(rt; names(rt, alloc, machine, base)?.as_str(), wanted);
        }
        Act::Instance(left, right, wanted) => {
            let left = add(rt, machine, left)?;
            let right = add(rt, machine, right)?;
            assert_eq!(rt; instance(rt, machine, left, right), wanted);
        }
        Act::Same(left, right, wanted) => {
            let left = add(rt, machine, left)?;
            let right = add(rt, machine, right)?;
            assert_eq!(rt; same(rt, machine, left, right), wanted);
        }
        Act::Is(base, members, called) => {
            let base = add(rt, machine, base)?;
            assert_eq!(rt; has_members(base), members);
            assert_eq!(rt; callable(rt, machine, base), called);
        }
        _ => {}
    }
    Ok(())
}

fn perform<L: Ledger>(
    rt: &impl Abort,
    alloc: Global,
    machine: &mut Machine<'_>,
    next: Act,
    steps: &mut Steps<L>,
) -> Result<(), Fail> {
    match next {
        Act::New(_) | Act::Function | Act::Bound(_) => make(rt, alloc, machine, next, steps)?,
        Act::Fix(number, name, value) => {
            let fixed = fix(rt, alloc, machine, number, name, Value::Num(value), steps);
            assert_eq!(rt; fixed, DONE, "fix {name}");
        }
        Act::Put(base, name, value, wanted) => {
            let answer = put(rt, alloc, machine, base, name, value, steps);
            assert_eq!(rt; answer, wanted, "put of {name}");
        }
        Act::Delete(base, name, wanted) => {
            let answer = delete(rt, alloc, machine, base, name, steps);
            assert_eq!(rt; answer, wanted, "deletion of {name}");
        }
        _ => ask(rt, alloc, machine, next)?,
    }
    Ok(())
}

// Does the acts in a machine that begins with the prototypes.
fn scene<L: Ledger>(rt: &impl Abort, alloc: Global, blank: Blank, acts: &[Act]) -> Result<(), Fail>
    requires name { blank.name ≡ L.name }
    requires parts { blank.parts ≡ L.parts }
    requires some { 0 < L.parts }
{
    let mut steps = Steps::<L>::new(blank);
    let shared = Shared::empty(alloc);
    let mut machine = Machine::clone_of(alloc, &shared);
    machine.new_object(alloc, Class::Object, None, Inner::Plain, &mut steps)?;
    for _ in 1..13 {
        make(rt, alloc, &mut machine, Act::New(0), &mut steps)?;
    }
    for next in acts {
        perform(rt, alloc, &mut machine, *next, &mut steps)?;
    }
    Ok(())
}

const ROOT: Given = Given::Obj(0);

const STRING: Given = Given::Obj(3);

const NO_FUNCTION: Result<bool, Cause> = Err(Cause::NotFunction);

const ONE: Given = Given::Num(1);

const TWO: Given = Given::Num(2);

const READS: &[Act] = &[
    Act::Put(ROOT, "root", ONE, DONE),
    Act::Put(STRING, "trim", TWO, DONE),
    Act::Put(STRING, "0", TWO, DONE),
    Act::Put(STRING, "9", TWO, DONE),
    Act::Put(STRING, "length", TWO, DONE),
    Act::Put(Given::Obj(4), "fixed", Given::Num(4), DONE),
    Act::Put(Given::Obj(5), "flag", Given::Num(5), DONE),
    Act::Get(Given::Str("h\u{e9}y"), "length", Given::Num(3)),
    Act::Get(Given::Str("h\u{e9}y"), "1", Given::Str("\u{e9}")),
    Act::Get(Given::Str("hey"), "0", Given::Str("h")),
    Act::Get(Given::Str("hey"), "3", Given::Undefined),
    Act::Get(Given::Str("hey"), "01", Given::Undefined),
    Act::Get(Given::Str("hey"), "9", TWO),
    Act::Get(Given::Str("hey"), "trim", TWO),
    Act::Get(Given::Str("hey"), "root", ONE),
    Act::Get(Given::Str("hey"), "fixed", Given::Undefined),
    Act::Get(Given::Num(7), "fixed", Given::Num(4)),
    Act::Get(Given::Num(7), "trim", Given::Undefined),
    Act::Get(Given::Num(7), "root", ONE),
    Act::Get(Given::Bool(true), "flag", Given::Num(5)),
    Act::Get(Given::Bool(true), "fixed", Given::Undefined),
    Act::New(3),
    Act::Get(Given::Obj(13), "trim", TWO),
    Act::Get(Given::Obj(13), "root", ONE),
    Act::Get(Given::Obj(13), "other", Given::Undefined),
    Act::Has(Given::Str("hey"), "2", true),
    Act::Has(Given::Str("hey"), "3", false),
    Act::Has(Given::Str(""), "0", true),
    Act::Has(Given::Str(""), "length", true),
    Act::Has(Given::Obj(13), "trim", true),
    Act::Has(Given::Obj(13), "flag", false),
    Act::Has(Given::Bool(false), "flag", true),
];

#[test]
fn every_value_is_read(rt: HostRuntime) -> Result<(), Fail> {
    scene::<Brand>(&rt, rt.alloc(), Blank::new(1), READS)
}

const WRITES: &[Act] = &[
    Act::New(0),
    Act::Put(Given::Obj(13), "name", Given::Str("x"), DONE),
    Act::Get(Given::Obj(13), "name", Given::Str("x")),
    Act::Put(Given::Obj(13), "name", Given::Obj(13), DONE),
    Act::Get(Given::Obj(13), "name", Given::Obj(13)),
    Act::Fix(0, "stays", 1),
    Act::Put(Given::Obj(13), "stays", TWO, READ_ONLY),
    Act::Get(Given::Obj(13), "stays", ONE),
    Act::Put(Given::Str("hey"), "new", ONE, NOT_OBJECT),
    Act::Put(Given::Num(1), "new", ONE, NOT_OBJECT),
    Act::Put(Given::Bool(true), "new", ONE, NOT_OBJECT),
    Act::Get(Given::Str("hey"), "new", Given::Undefined),
    Act::Delete(Given::Obj(13), "name", DONE),
    Act::Get(Given::Obj(13), "name", Given::Undefined),
    Act::Delete(Given::Obj(13), "stays", DONE),
    Act::Delete(ROOT, "stays", NOT_CONFIGURABLE),
    Act::Get(Given::Obj(13), "stays", ONE),
    Act::Delete(Given::Str("hey"), "length", NOT_CONFIGURABLE),
    Act::Delete(Given::Str("hey"), "2", NOT_CONFIGURABLE),
    Act::Delete(Given::Str("hey"), "3", DONE),
    Act::Delete(Given::Num(1), "length", DONE),
];

#[test]
fn only_objects_are_written(rt: HostRuntime) -> Result<(), Fail> {
    scene::<Brand>(&rt, rt.alloc(), Blank::new(1), WRITES)
}

const LISTS: &[Act] = &[
    Act::Put(STRING, "shared", ONE, DONE),
    Act::Put(STRING, "length", ONE, DONE),
    Act::Put(STRING, "2", ONE, DONE),
    Act::Put(STRING, "0", ONE, DONE),
    Act::Put(ROOT, "shared", ONE, DONE),
    Act::Put(ROOT, "root", ONE, DONE),
    Act::Put(ROOT, "1", ONE, DONE),
    Act::Names(Given::Str("ab"), "0,1,2,shared,root,"),
    Act::Names(Given::Str(""), "0,2,shared,1,root,"),
    Act::Names(Given::Num(1), "1,shared,root,"),
    Act::Names(Given::Undefined, ""),
    Act::New(0),
    Act::New(13),
    Act::Put(Given::Obj(13), "quiet", ONE, DONE),
    Act::Put(Given::Obj(13), "a", ONE, DONE),
    Act::Put(Given::Obj(13), "c", ONE, DONE),
    Act::Put(Given::Obj(14), "b", ONE, DONE),
    Act::Put(Given::Obj(14), "10", ONE, DONE),
    Act::Put(Given::Obj(14), "9", ONE, DONE),
    Act::Put(Given::Obj(14), "a", ONE, DONE),
    Act::Fix(14, "quiet", 1),
    Act::Names(Given::Obj(14), "9,10,b,a,c,1,shared,root,"),
];

#[test]
fn nearer_names_hide_others(rt: HostRuntime) -> Result<(), Fail> {
    scene::<Brand>(&rt, rt.alloc(), Blank::new(1), LISTS)
}

const QUESTIONS: &[Act] = &[
    Act::Function,
    Act::Bound(13),
    Act::New(0),
    Act::New(15),
    Act::Instance(Given::Obj(16), Given::Obj(13), Err(Cause::NotObject)),
    Act::Put(Given::Obj(13), "prototype", Given::Obj(15), DONE),
    Act::Instance(Given::Obj(16), Given::Obj(13), Ok(true)),
    Act::Instance(Given::Obj(16), Given::Obj(14), Ok(true)),
    Act::Instance(Given::Obj(15), Given::Obj(13), Ok(false)),
    Act::Instance(Given::Str("hey"), Given::Obj(13), Ok(false)),
    Act::Instance(Given::Obj(16), Given::Obj(15), NO_FUNCTION),
    Act::Instance(Given::Obj(16), Given::Undefined, NO_FUNCTION),
    Act::Is(Given::Undefined, false, false),
    Act::Is(Given::Null, false, false),
    Act::Is(Given::Bool(false), true, false),
    Act::Is(Given::Num(0), true, false),
    Act::Is(Given::Str(""), true, false),
    Act::Is(Given::Obj(13), true, true),
    Act::Is(Given::Obj(14), true, true),
    Act::Is(Given::Obj(15), true, false),
    Act::Same(Given::Str("hey"), Given::Str("hey"), true),
    Act::Same(Given::Str("1"), ONE, false),
    Act::Same(Given::Undefined, Given::Null, false),
    Act::Same(Given::Obj(13), Given::Obj(13), true),
    Act::Same(Given::Obj(13), Given::Obj(14), false),
];

#[test]
fn instances_go_by_the_target(rt: HostRuntime) -> Result<(), Fail> {
    scene::<Brand>(&rt, rt.alloc(), Blank::new(1), QUESTIONS)
}
