// Conversions are those of ECMA-262 5.1 §9 over whole numbers, for two callers, and every run begins with the objects of §15.
ghost use Rattle.std.specs.Prelude.{◌≡◌, ◌<◌, true};
ghost use Rattle.njs_shared.specs.Heap.{sizes};
ghost use Rattle.njs_convert.specs.Tells.{FitsCause};

use crate::callers::{Tally, Throwing};
use crate::fixtures::Conversion::{
    self, Any, Number, ToBoolean, ToInt32, ToNumber, ToText, ToUint32,
};
use crate::fixtures::Given::{self, Bool, Null, Num, Object, Str, Undefined};
use crate::fixtures::Method::{self, Function, Missing};
use crate::fixtures::Wanted::{self, Error, Fuel, Is, Text, ThrowsNull};
use crate::fixtures::{answering, answers, fixed, has_message, is_text, object};
use crate::{Caller, HostCaller, Level, Stop, first_heap, throw};
use njs_clone::Machine;
use njs_shared::Shared;
use njs_text::Steps;
use njs_value::{Cause, ObjId, ScopeId, TextId, Value};
use std::alloc::Global;
use std::marker::Brand;
use std::process::Abort;
use std::sync::ledger::{Blank, Ledger};
use std::test::Fail;

// What a conversion of a value answers.
type Simple = (Given, Conversion, Wanted);

const NAN: Wanted = Error("not a number");

// Values that are no objects (§9.1 to §9.3, §9.5, §9.6, §9.8).
const SIMPLE: &[Simple] = &[
    (Undefined, Any, Is(Value::Undefined)),
    (Null, Number, Is(Value::Null)),
    (Bool(true), Conversion::Text, Is(Value::Bool(true))),
    (Undefined, ToNumber, NAN),
    (Null, ToNumber, Is(Value::Num(0))),
    (Bool(true), ToNumber, Is(Value::Num(1))),
    (Num(-7), ToNumber, Is(Value::Num(-7))),
    (Str(" "), ToNumber, Is(Value::Num(0))),
    (Str("\t12\n"), ToNumber, Is(Value::Num(12))),
    (Str("+5"), ToNumber, Is(Value::Num(5))),
    (Str("0x1F"), ToNumber, Is(Value::Num(31))),
    (Str("-0x1"), ToNumber, NAN),
    (Str("1.5"), ToNumber, NAN),
    (
        Str("9007199254740991"),
        ToNumber,
        Is(Value::Num(9_007_199_254_740_991)),
    ),
    (Str("9007199254740992"), ToNumber, NAN),
    (Str("-9007199254740992"), ToNumber, NAN),
    (Undefined, ToText, Text("undefined")),
    (Null, ToText, Text("null")),
    (Bool(false), ToText, Text("false")),
    (
        Num(-9_007_199_254_740_991),
        ToText,
        Text("-9007199254740991"),
    ),
    (Str("x"), ToText, Text("x")),
    (Null, ToBoolean, Is(Value::Bool(false))),
    (Num(0), ToBoolean, Is(Value::Bool(false))),
    (Str(""), ToBoolean, Is(Value::Bool(false))),
    (Str("0"), ToBoolean, Is(Value::Bool(true))),
    (Object(Missing, Missing), ToBoolean, Is(Value::Bool(true))),
    (Num(2_147_483_648), ToInt32, Is(Value::Num(-2_147_483_648))),
    (Num(-2_147_483_649), ToInt32, Is(Value::Num(2_147_483_647))),
    (Num(9_007_199_254_740_991), ToInt32, Is(Value::Num(-1))),
    (Undefined, ToInt32, NAN),
    (Num(-1), ToUint32, Is(Value::Num(4_294_967_295))),
    (Num(4_294_967_296), ToUint32, Is(Value::Num(0))),
    (Num(-9_007_199_254_740_991), ToUint32, Is(Value::Num(1))),
    (Undefined, ToUint32, NAN),
];

fn simple_case<L: Ledger>(
    rt: &impl Abort,
    alloc: Global,
    case: Simple,
    steps: &mut Steps<L>,
) -> Result<(), Fail> {
    let (given, conversion, wanted) = case;
    let mut throwing = Throwing { left: 0 };
    assert!(rt; answers(rt, alloc, &mut throwing, conversion, given, wanted, steps)?);
    let mut other = answering(alloc, 0, None, None);
    assert!(rt; answers(rt, alloc, &mut other, conversion, given, wanted, steps)?);
    Ok(())
}

fn simple<L: Ledger>(
    rt: &impl Abort,
    alloc: Global,
    cases: &[Simple],
    blank: Blank,
) -> Result<(), Fail>
    requires name { blank.name ≡ L.name }
    requires parts { blank.parts ≡ L.parts }
    requires some { 0 < L.parts }
{
    let mut steps = Steps::<L>::new(blank);
    for case in cases {
        simple_case(rt, alloc, *case, &mut steps)?;
    }
    Ok(())
}

#[test]
fn simple_values_convert(rt: HostRuntime) -> Result<(), Fail> {
    simple::<Brand>(&rt, rt.alloc(), SIMPLE, Blank::new(1))
}

// The methods of an object, what `valueOf` and `toString` give (a number or the object), the conversion and what it answers.
// Each call takes one of two ticks.
type Called = (Given, Option<i32>, Option<i32>, Conversion, Wanted, u64);

const BOTH: Given = Object(Function, Function);

const NO_PRIMITIVE: Wanted = Error("no primitive value");

// The order of the methods, the first that gives no object, and the calls that are made (§8.12.8).
const CALLED: &[Called] = &[
    (BOTH, Some(7), Some(8), Any, Is(Value::Num(7)), 1),
    (BOTH, Some(7), Some(8), Number, Is(Value::Num(7)), 1),
    (
        BOTH,
        Some(7),
        Some(8),
        Conversion::Text,
        Is(Value::Num(8)),
        1,
    ),
    (BOTH, Some(7), Some(8), ToNumber, Is(Value::Num(7)), 1),
    (BOTH, Some(7), Some(8), ToText, Text("8"), 1),
    (BOTH, None, Some(8), Any, Is(Value::Num(8)), 2),
    (BOTH, None, Some(8), Number, Is(Value::Num(8)), 2),
    (BOTH, None, Some(-8), ToInt32, Is(Value::Num(-8)), 2),
    (
        BOTH,
        None,
        Some(-8),
        ToUint32,
        Is(Value::Num(4_294_967_288)),
        2,
    ),
    (BOTH, Some(7), None, Conversion::Text, Is(Value::Num(7)), 2),
    (BOTH, Some(7), None, ToText, Text("7"), 2),
    (BOTH, None, None, Any, NO_PRIMITIVE, 2),
    (BOTH, None, None, ToText, NO_PRIMITIVE, 2),
    (BOTH, None, None, ToUint32, NO_PRIMITIVE, 2),
    (
        Object(Missing, Function),
        Some(7),
        Some(8),
        ToNumber,
        Is(Value::Num(8)),
        1,
    ),
    (
        Object(Function, Method::Number),
        Some(7),
        Some(8),
        ToText,
        Text("7"),
        1,
    ),
    (
        Object(Missing, Missing),
        Some(7),
        Some(8),
        ToNumber,
        NO_PRIMITIVE,
        0,
    ),
];

fn called_case<L: Ledger>(
    rt: &impl Abort,
    alloc: Global,
    case: Called,
    steps: &mut Steps<L>,
) -> Result<(), Fail> {
    let (given, value_of, to_string, conversion, wanted, calls) = case;
    let mut caller = answering(alloc, 2, value_of, to_string);
    assert!(rt; answers(rt, alloc, &mut caller, conversion, given, wanted, steps)?);
    assert!(rt; caller.host.calls == calls);
    assert!(rt; caller.left == 2_u64.saturating_sub(calls));
    Ok(())
}

fn called<L: Ledger>(
    rt: &impl Abort,
    alloc: Global,
    cases: &[Called],
    blank: Blank,
) -> Result<(), Fail>
    requires name { blank.name ≡ L.name }
    requires parts { blank.parts ≡ L.parts }
    requires some { 0 < L.parts }
{
    let mut steps = Steps::<L>::new(blank);
    for case in cases {
        called_case(rt, alloc, *case, &mut steps)?;
    }
    Ok(())
}

#[test]
fn objects_convert_by_their_methods(rt: HostRuntime) -> Result<(), Fail> {
    called::<Brand>(&rt, rt.alloc(), CALLED, Blank::new(1))
}

const CALLING: &[Conversion] = &[
    Any,
    Number,
    Conversion::Text,
    ToNumber,
    ToText,
    ToInt32,
    ToUint32,
];

// What a call throws, and that ticks are spent.
fn stopped<L: Ledger>(
    rt: &impl Abort,
    alloc: Global,
    conversions: &[Conversion],
    blank: Blank,
) -> Result<(), Fail>
    requires name { blank.name ≡ L.name }
    requires parts { blank.parts ≡ L.parts }
    requires some { 0 < L.parts }
{
    let mut steps = Steps::<L>::new(blank);
    for conversion in conversions {
        let mut throwing = Throwing { left: 1 };
        assert!(rt;
            answers(
                rt,
                alloc,
                &mut throwing,
                *conversion,
                BOTH,
                ThrowsNull,
                &mut steps
            )?
        );
        let mut spent = answering(alloc, 1, None, None);
        assert!(rt; answers(rt, alloc, &mut spent, *conversion, BOTH, Fuel, &mut steps)?);
    }
    Ok(())
}

#[test]
fn what_stops_a_call_stops_the_conversion(rt: HostRuntime) -> Result<(), Fail> {
    stopped::<Brand>(&rt, rt.alloc(), CALLING, Blank::new(1))
}

type Thrown = (Cause, u32, &'static str);

// A cause of each type, with the place of its prototype and its message.
const CAUSES: &[Thrown] = &[
    (Cause::NotDefined(TextId(0)), 9, "\"none\" is not defined"),
    (Cause::NullBase, 7, "no properties"),
    (Cause::ReadOnly, 7, "read-only"),
    (Cause::OutOfRange, 8, "out of range"),
    (Cause::BadJson, 10, "bad JSON"),
    (Cause::BadUri, 11, "bad URI"),
    (Cause::NoRoom, 12, "no room"),
];

// Whether a machine has the name that a cause holds.
fn cause_fits(machine: &Machine<'_>, cause: Cause) -> bool
    ensures { result ≡ true → FitsCause (sizes machine.now) cause }
{
    match cause {
        Cause::NotDefined(name) => name.0 < machine.sizes().2,
        _ => true,
    }
}

// The first heap, in which an error is thrown.
fn thrown_case<L: Ledger>(
    rt: &impl Abort,
    alloc: Global,
    case: Thrown,
    steps: &mut Steps<L>,
) -> Result<(), Fail> {
    let (cause, up, message) = case;
    let shared = Shared::empty(alloc);
    let mut machine = Machine::clone_of(alloc, &shared);
    machine.add_text(fixed(rt, "none"))?;
    first_heap(alloc, &mut machine, 1, steps)?;
    assert!(rt; cause_fits(&machine, cause));
    let stop = throw(alloc, &mut machine, cause, steps);
    assert!(rt; stop == Stop::Throw(Value::Obj(ObjId(13))));
    assert!(rt; has_message(rt, &machine, Value::Obj(ObjId(13)), message));
    let error = object(rt, &machine, 13);
    assert!(rt; machine.object(error).prototype == Some(ObjId(up)));
    Ok(())
}

fn thrown<L: Ledger>(
    rt: &impl Abort,
    alloc: Global,
    cases: &[Thrown],
    blank: Blank,
) -> Result<(), Fail>
    requires name { blank.name ≡ L.name }
    requires parts { blank.parts ≡ L.parts }
    requires some { 0 < L.parts }
{
    let mut steps = Steps::<L>::new(blank);
    for case in cases {
        thrown_case(rt, alloc, *case, &mut steps)?;
    }
    Ok(())
}

#[test]
fn each_cause_has_its_error(rt: HostRuntime) -> Result<(), Fail> {
    thrown::<Brand>(&rt, rt.alloc(), CAUSES, Blank::new(1))
}

type Named = (u32, &'static str);

// The error prototypes of the first heap by their names (§15.11).
const NAMES: &[Named] = &[
    (6, "Error"),
    (7, "TypeError"),
    (8, "RangeError"),
    (9, "ReferenceError"),
    (10, "SyntaxError"),
    (11, "URIError"),
    (12, "SharedMemoryError"),
];

fn first<L: Ledger>(
    rt: &impl Abort,
    alloc: Global,
    names: &[Named],
    blank: Blank,
) -> Result<(), Fail>
    requires name { blank.name ≡ L.name }
    requires parts { blank.parts ≡ L.parts }
    requires some { 0 < L.parts }
{
    let mut steps = Steps::<L>::new(blank);
    let shared = Shared::empty(alloc);
    let mut machine = Machine::clone_of(alloc, &shared);
    first_heap(alloc, &mut machine, 3, &mut steps)?;
    let (objects, scopes, _) = machine.sizes();
    assert!(rt; objects == 13);
    assert!(rt; scopes == 1);
    assert!(rt; machine.parent(ScopeId(0)) == None);
    let key = fixed(rt, "name");
    for (number, name) in names {
        let prototype = object(rt, &machine, *number);
        assert!(rt; is_text(&machine, machine.get(prototype, &key), name));
        assert!(rt; has_message(rt, &machine, Value::Obj(prototype), ""));
    }
    Ok(())
}

#[test]
fn the_first_heap_has_the_error_prototypes(rt: HostRuntime) -> Result<(), Fail> {
    first::<Brand>(&rt, rt.alloc(), NAMES, Blank::new(1))
}

// How many calls and notes the host that a caller lends has seen.
fn seen<C: HostCaller<Tally, L>, L: Ledger>(caller: &mut C) -> (u64, usize)
    ensures ticks { C.ticks_of caller.new ≡ C.ticks_of caller.old }
{
    let host = caller.host();
    (host.calls, host.notes.len())
}

// Has the host begin its count anew.
fn begin_anew<C: HostCaller<Tally, L>, L: Ledger>(caller: &mut C)
    ensures ticks { C.ticks_of caller.new ≡ C.ticks_of caller.old }
{
    caller.host().calls = 0;
}

fn lent<C: HostCaller<Tally, L>, L: Ledger>(
    rt: &impl Abort,
    alloc: Global,
    caller: &mut C,
    steps: &mut Steps<L>,
) -> Result<(), Fail>
    requires may { C.may_call caller.old }
    requires fits { (h : _) → C.fits caller.old h }
{
    assert!(rt; answers(rt, alloc, caller, ToText, BOTH, Text("2"), steps)?);
    assert!(rt; caller.note(alloc, Level::Warn, &fixed(rt, "seen")) == Ok(()));
    assert!(rt; seen(caller) == (1, 1));
    begin_anew(caller);
    assert!(rt; seen(caller) == (0, 1));
    assert!(rt; caller.charge(4) == Ok(()));
    assert!(rt; caller.charge(1) == Err(Stop::Fuel));
    Ok(())
}

fn hosts<L: Ledger>(rt: &impl Abort, alloc: Global, blank: Blank) -> Result<(), Fail>
    requires name { blank.name ≡ L.name }
    requires parts { blank.parts ≡ L.parts }
    requires some { 0 < L.parts }
{
    let mut steps = Steps::<L>::new(blank);
    let mut caller = answering(alloc, 5, Some(1), Some(2));
    lent(rt, alloc, &mut caller, &mut steps)?;
    assert!(rt; caller.left == 0);
    Ok(())
}

#[test]
fn a_host_is_lent(rt: HostRuntime) -> Result<(), Fail> {
    hosts::<Brand>(&rt, rt.alloc(), Blank::new(1))
}
