// What objects do is that of ECMA-262 5.1 §8.12 and §15.4.5.1, in strict mode, and the order of names that of njs.
ghost use Rattle.std.specs.Prelude.{◌≡◌, ◌<◌, true};
ghost use Rattle.njs_shared.specs.Heap.{sizes};
ghost use Rattle.njs_shared.specs.Fits.{FitsValue};

use crate::Machine;
use njs_shared::{Inner, Shared};
use njs_text::{NoMemory, Steps, Text};
use njs_value::{Cause, Class, Desc, Flags, HeapStop, MAX_SAFE, ObjId, ScopeId, TextId, Value};
use std::alloc::Global;
use std::marker::Brand;
use std::process::Abort;
use std::sync::ledger::{Blank, Ledger};
use std::test::Fail;

type Answer = Result<(), HeapStop>;

const DONE: Answer = Ok(());

const READ_ONLY: Answer = Err(HeapStop::Throw(Cause::ReadOnly));

const NOT_EXTENSIBLE: Answer = Err(HeapStop::Throw(Cause::NotExtensible));

const NOT_CONFIGURABLE: Answer = Err(HeapStop::Throw(Cause::NotConfigurable));

const BAD_LENGTH: Answer = Err(HeapStop::Throw(Cause::BadLength));

const ONE: Value = Value::Num(1);

const TWO: Value = Value::Num(2);

const UNDEFINED: Value = Value::Undefined;

// What a test does with a machine, objects by their numbers, and what it must see.
#[derive(Drop)]
enum Act {
    New(Class, Option<u32>),
    Text(&'static str),
    Put(u32, &'static str, Value, Answer),
    Define(u32, &'static str, Desc, Answer),
    Delete(u32, &'static str, Answer),
    Stop(u32),
    Get(u32, &'static str, Value),
    Own(u32, &'static str, Option<(Value, Flags)>),
    // The names, each followed by a comma.
    Keys(u32, &'static str),
}

const FULL: Flags = Flags {
    writable: true,
    enumerable: true,
    configurable: true,
};

fn flags(writable: bool, enumerable: bool, configurable: bool) -> Flags {
    Flags {
        writable,
        enumerable,
        configurable,
    }
}

fn desc(
    value: Option<Value>,
    writable: Option<bool>,
    enumerable: Option<bool>,
    configurable: Option<bool>,
) -> Desc {
    Desc {
        value,
        writable,
        enumerable,
        configurable,
    }
}

fn value(value: Value) -> Desc {
    desc(Some(value), None, None, None)
}

fn name(rt: &impl Abort, name: &'static str) -> Text {
    assert!(rt; name.len() <= 32);
    Text::fixed(name)
}

// Whether a machine has what a value names.
fn fits(machine: &Machine<'_>, value: Value) -> bool
    ensures { result ≡ true → FitsValue (sizes machine.now) value }
{
    match value {
        Value::Num(number) => number <= MAX_SAFE && -MAX_SAFE <= number,
        Value::Str(text) => text.0 < machine.sizes().2,
        Value::Obj(object) => object.0 < machine.sizes().0,
        Value::Undefined | Value::Null | Value::Bool(_) => true,
    }
}

fn object(rt: &impl Abort, machine: &Machine<'_>, number: u32) -> ObjId
    ensures { result.0 < (sizes machine.now).objects }
{
    assert!(rt; number < machine.sizes().0);
    ObjId(number)
}

fn keys(
    rt: &impl Abort,
    alloc: Global,
    machine: &Machine<'_>,
    number: u32,
) -> Result<String, Fail> {
    let object = object(rt, machine, number);
    let mut shown = String::new(alloc);
    for name in &machine.keys(alloc, object)? {
        shown.push_str(name.as_str())?;
        shown.push(',')?;
    }
    Ok(shown)
}

fn put<L: Ledger>(
    rt: &impl Abort,
    alloc: Global,
    machine: &mut Machine<'_>,
    number: u32,
    key: &'static str,
    value: Value,
    steps: &mut Steps<L>,
) -> Answer {
    let object = object(rt, machine, number);
    let name = name(rt, key);
    assert!(rt; fits(machine, value));
    machine.put(alloc, object, &name, value, steps)
}

fn define<L: Ledger>(
    rt: &impl Abort,
    alloc: Global,
    machine: &mut Machine<'_>,
    number: u32,
    key: &'static str,
    desc: Desc,
    steps: &mut Steps<L>,
) -> Answer {
    let object = object(rt, machine, number);
    let name = name(rt, key);
    if let Some(value) = desc.value {
        assert!(rt; fits(machine, value));
    }
    machine.define(alloc, object, &name, desc, steps)
}

fn new_object<L: Ledger>(
    rt: &impl Abort,
    alloc: Global,
    machine: &mut Machine<'_>,
    class: Class,
    prototype: Option<u32>,
    steps: &mut Steps<L>,
) -> Result<ObjId, NoMemory> {
    let prototype = match prototype {
        None => None,
        Some(number) => Some(object(rt, machine, number)),
    };
    machine.new_object(alloc, class, prototype, Inner::Plain, steps)
}

fn get(rt: &impl Abort, machine: &Machine<'_>, number: u32, key: &'static str) -> Value {
    machine.get(object(rt, machine, number), &name(rt, key))
}

fn perform<L: Ledger>(
    rt: &impl Abort,
    alloc: Global,
    machine: &mut Machine<'_>,
    next: &Act,
    steps: &mut Steps<L>,
) -> Result<(), Fail> {
    match next {
        Act::New(class, prototype) => {
            new_object(rt, alloc, machine, *class, *prototype, steps)?;
        }
        Act::Text(text) => {
            machine.add_text(name(rt, text))?;
        }
        Act::Put(number, key, value, answer) => {
            assert_eq!(rt;
                put(rt, alloc, machine, *number, key, *value, steps),
                *answer,
                "put of {key}"
            );
        }
        Act::Define(number, key, desc, answer) => {
            assert_eq!(rt;
                define(rt, alloc, machine, *number, key, *desc, steps),
                *answer,
                "definition of {key}"
            );
        }
        Act::Delete(number, key, answer) => {
            let object = object(rt, machine, *number);
            let deleted = machine.delete(alloc, object, &name(rt, key), steps);
            assert_eq!(rt; deleted, *answer, "deletion of {key}");
        }
        Act::Stop(number) => {
            let object = object(rt, machine, *number);
            machine.stop_extensions(alloc, object, steps)?;
        }
        Act::Get(number, key, value) => {
            assert_eq!(rt; get(rt, machine, *number, key), *value, "get of {key}");
        }
        Act::Own(number, key, found) => {
            let own = machine.own(object(rt, machine, *number), &name(rt, key));
            assert_eq!(rt; own, *found, "own {key}");
        }
        Act::Keys(number, names) => {
            assert_eq!(rt; keys(rt, alloc, machine, *number)?.as_str(), *names);
        }
    }
    Ok(())
}

// Does the acts in a machine that begins empty.
fn scene<L: Ledger>(rt: &impl Abort, alloc: Global, blank: Blank, acts: &[Act]) -> Result<(), Fail>
    requires name { blank.name ≡ L.name }
    requires parts { blank.parts ≡ L.parts }
    requires some { 0 < L.parts }
{
    let mut steps = Steps::<L>::new(blank);
    let shared = Shared::empty(alloc);
    let mut machine = Machine::clone_of(alloc, &shared);
    for next in acts {
        perform(rt, alloc, &mut machine, next, &mut steps)?;
    }
    Ok(())
}

#[test]
fn an_array_follows_its_length(rt: HostRuntime) -> Result<(), Fail> {
    scene::<Brand>(
        &rt,
        rt.alloc(),
        Blank::new(1),
        &[
            Act::New(Class::Array, None),
            Act::Get(0, "length", Value::Num(0)),
            Act::Put(0, "3", ONE, DONE),
            Act::Get(0, "length", Value::Num(4)),
            Act::Put(0, "0", ONE, DONE),
            Act::Put(0, "01", ONE, DONE),
            Act::Put(0, "4294967295", ONE, DONE),
            Act::Get(0, "length", Value::Num(4)),
            Act::Keys(0, "0,3,length,01,4294967295,"),
            Act::Put(0, "length", TWO, DONE),
            Act::Get(0, "3", UNDEFINED),
            Act::Put(0, "7", ONE, DONE),
            Act::Define(0, "5", value(TWO), DONE),
            Act::Put(0, "length", Value::Num(0), NOT_CONFIGURABLE),
            Act::Get(0, "length", Value::Num(6)),
            Act::Keys(0, "0,5,length,01,4294967295,"),
            Act::Text(" 0x1F "),
            Act::Put(0, "length", Value::Str(TextId(0)), DONE),
            Act::Get(0, "length", Value::Num(31)),
            Act::Put(0, "length", Value::Num(4_294_967_296), BAD_LENGTH),
            Act::Put(0, "length", Value::Num(-1), BAD_LENGTH),
            Act::Put(0, "length", UNDEFINED, BAD_LENGTH),
            Act::Put(0, "length", Value::Obj(ObjId(0)), BAD_LENGTH),
            Act::Put(0, "length", Value::Num(4_294_967_295), DONE),
            Act::Put(0, "4294967294", ONE, DONE),
            Act::Define(0, "length", desc(None, Some(false), None, None), DONE),
            Act::Put(0, "length", ONE, READ_ONLY),
            Act::Put(0, "4294967293", ONE, DONE),
            Act::Define(0, "length", value(Value::Num(4_294_967_295)), DONE),
            Act::Define(0, "length", value(ONE), NOT_CONFIGURABLE),
            Act::New(Class::Array, None),
            Act::Define(1, "length", desc(Some(TWO), Some(false), None, None), DONE),
            Act::Put(1, "2", ONE, READ_ONLY),
            Act::Define(1, "2", value(ONE), READ_ONLY),
            Act::Put(1, "1", ONE, DONE),
            Act::Own(1, "length", Some((TWO, flags(false, false, false)))),
            Act::New(Class::Array, None),
            Act::Define(2, "4", value(ONE), DONE),
            Act::Get(2, "length", Value::Num(5)),
            Act::Define(
                2,
                "length",
                desc(Some(Value::Num(0)), Some(false), None, None),
                NOT_CONFIGURABLE,
            ),
            Act::Own(
                2,
                "length",
                Some((Value::Num(5), flags(true, false, false))),
            ),
            Act::Define(2, "length", value(Value::Num(-1)), BAD_LENGTH),
            Act::Delete(2, "length", NOT_CONFIGURABLE),
        ],
    )
}

#[test]
fn a_definition_is_refused_for_its_cause(rt: HostRuntime) -> Result<(), Fail> {
    scene::<Brand>(
        &rt,
        rt.alloc(),
        Blank::new(1),
        &[
            Act::New(Class::Object, None),
            Act::Define(0, "a", value(ONE), DONE),
            Act::Own(0, "a", Some((ONE, flags(false, false, false)))),
            Act::Define(0, "a", value(ONE), DONE),
            Act::Define(0, "a", value(TWO), NOT_CONFIGURABLE),
            Act::Define(0, "a", desc(None, Some(true), None, None), NOT_CONFIGURABLE),
            Act::Define(0, "a", desc(None, None, Some(true), None), NOT_CONFIGURABLE),
            Act::Define(0, "a", desc(None, None, None, Some(true)), NOT_CONFIGURABLE),
            Act::Define(
                0,
                "a",
                desc(None, Some(false), Some(false), Some(false)),
                DONE,
            ),
            Act::Define(0, "b", desc(None, Some(true), None, None), DONE),
            Act::Define(0, "b", value(TWO), DONE),
            Act::Define(0, "b", desc(None, Some(false), None, None), DONE),
            Act::Own(0, "b", Some((TWO, flags(false, false, false)))),
            Act::Text("same"),
            Act::Text("same"),
            Act::Text("other"),
            Act::Define(0, "c", value(Value::Str(TextId(0))), DONE),
            Act::Define(0, "c", value(Value::Str(TextId(1))), DONE),
            Act::Define(0, "c", value(Value::Str(TextId(2))), NOT_CONFIGURABLE),
            Act::Put(0, "d", ONE, DONE),
            Act::Stop(0),
            Act::Define(0, "e", value(ONE), NOT_EXTENSIBLE),
            Act::Put(0, "e", ONE, NOT_EXTENSIBLE),
            Act::Define(
                0,
                "d",
                desc(Some(TWO), None, Some(false), Some(false)),
                DONE,
            ),
            Act::Own(0, "d", Some((TWO, flags(true, false, false)))),
            Act::Delete(0, "d", NOT_CONFIGURABLE),
            Act::Delete(0, "e", DONE),
            Act::Keys(0, "a,b,c,d,"),
        ],
    )
}

#[test]
fn a_put_sees_the_prototypes(rt: HostRuntime) -> Result<(), Fail> {
    scene::<Brand>(
        &rt,
        rt.alloc(),
        Blank::new(1),
        &[
            Act::New(Class::Object, None),
            Act::Put(0, "a", ONE, DONE),
            Act::Put(0, "b", ONE, DONE),
            Act::Define(0, "a", desc(None, Some(false), None, Some(false)), DONE),
            Act::Stop(0),
            Act::Put(0, "a", TWO, READ_ONLY),
            Act::New(Class::Object, Some(0)),
            Act::Put(1, "a", TWO, READ_ONLY),
            Act::Put(1, "b", TWO, DONE),
            Act::Own(1, "b", Some((TWO, FULL))),
            Act::Own(1, "a", None),
            Act::Get(1, "a", ONE),
            Act::Get(0, "b", ONE),
            Act::Delete(1, "b", DONE),
            Act::Get(1, "b", ONE),
            Act::Delete(1, "a", DONE),
            Act::New(Class::HeadersIn, Some(0)),
            Act::Put(2, "user-agent", TWO, DONE),
            Act::Get(2, "User-Agent", TWO),
            Act::Own(2, "User-Agent", None),
        ],
    )
}

#[test]
fn names_keep_the_order_of_creation(rt: HostRuntime) -> Result<(), Fail> {
    scene::<Brand>(
        &rt,
        rt.alloc(),
        Blank::new(1),
        &[
            Act::New(Class::Object, None),
            Act::Put(0, "b", ONE, DONE),
            Act::Put(0, "10", ONE, DONE),
            Act::Put(0, "a", ONE, DONE),
            Act::Put(0, "9", ONE, DONE),
            Act::Put(0, "b", TWO, DONE),
            Act::Keys(0, "9,10,b,a,"),
            Act::Delete(0, "b", DONE),
            Act::Put(0, "b", ONE, DONE),
            Act::Keys(0, "9,10,a,b,"),
        ],
    )
}

// A level with one object, `a` of 1, and a second one that has it as its prototype.
fn level<L: Ledger>(rt: &impl Abort, alloc: Global, steps: &mut Steps<L>) -> Result<Shared, Fail> {
    let empty = Shared::empty(alloc);
    let mut machine = Machine::clone_of(alloc, &empty);
    machine.first_scope(alloc, 2, steps)?;
    for next in &[
        Act::New(Class::Object, None),
        Act::Put(0, "a", ONE, DONE),
        Act::New(Class::Object, Some(0)),
    ] {
        perform(rt, alloc, &mut machine, next, steps)?;
    }
    Ok(machine.freeze(alloc)?)
}

fn two_machines<L: Ledger>(rt: &impl Abort, alloc: Global, blank: Blank) -> Result<(), Fail>
    requires name { blank.name ≡ L.name }
    requires parts { blank.parts ≡ L.parts }
    requires some { 0 < L.parts }
{
    let mut steps = Steps::<L>::new(blank);
    let shared = level(rt, alloc, &mut steps)?;
    let mut first = Machine::clone_of(alloc, &shared);
    let mut second = Machine::clone_of(alloc, &shared);
    assert_eq!(rt; put(rt, alloc, &mut first, 0, "a", TWO, &mut steps), DONE);
    let changed = object(rt, &second, 0);
    let a = name(rt, "a");
    assert_eq!(rt; second.delete(alloc, changed, &a, &mut steps), DONE);
    assert_eq!(rt; get(rt, &first, 1, "a"), TWO);
    assert_eq!(rt; get(rt, &second, 1, "a"), UNDEFINED);
    assert_eq!(rt; get(rt, &Machine::clone_of(alloc, &shared), 1, "a"), ONE);
    let frozen = first.freeze(alloc)?;
    assert_eq!(rt; get(rt, &Machine::clone_of(alloc, &frozen), 1, "a"), TWO);
    Ok(())
}

#[test]
fn machines_over_one_level_go_apart(rt: HostRuntime) -> Result<(), Fail> {
    two_machines::<Brand>(&rt, rt.alloc(), Blank::new(1))
}
