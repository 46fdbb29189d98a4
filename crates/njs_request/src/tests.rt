// `return` answers a request once, by a status and a text (njs reference, `r.return`).
ghost use Rattle.std.specs.Prelude.{◌≡◌, ◌<◌, [], true, length};
ghost use Rattle.njs_shared.specs.Heap.{sizes};
ghost use Rattle.njs_shared.specs.Fits.{FitsValue};

use crate::callers::{Answering, Keeper};
use crate::{RETURN, Record, call, can_construct, make, prototype};
use http_out::Reply;
use njs_clone::Machine;
use njs_convert::{Stop, first_heap};
use njs_shared::{Inner, Shared};
use njs_text::{Steps, Text};
use njs_value::{Class, MAX_SAFE, ObjId, Value};
use std::alloc::Global;
use std::marker::Brand;
use std::process::Abort;
use std::sync::ledger::{Blank, Ledger};
use std::test::Fail;

// What an argument is; the text of the object is what a call gives.
#[derive(Clone, Copy)]
enum Given {
    Undefined,
    Null,
    Num(i64),
    Str(&'static str),
    Object,
}

fn fixed(rt: &impl Abort, text: &'static str) -> Text {
    assert!(rt; text.len() <= 32);
    Text::fixed(text)
}

// Whether a machine has what a value names.
fn fits(machine: &Machine<'_>, value: Value) -> bool
    ensures { result ≡ true → FitsValue (sizes machine.now) value }
{
    match value {
        Value::Num(number) => number <= MAX_SAFE && -MAX_SAFE <= number,
        Value::Str(text) => text.0 < machine.sizes().2,
        Value::Obj(object) => object.0 < machine.sizes().0,
        Value::Undefined | Value::Null | Value::Bool(_) => true,
    }
}

fn object(rt: &impl Abort, machine: &Machine<'_>, object: ObjId) -> ObjId
    ensures { result.0 < length machine.now.objects }
{
    assert!(rt; object.0 < machine.sizes().0);
    object
}

fn read(rt: &impl Abort, machine: &Machine<'_>, of: ObjId, name: &'static str) -> Value {
    machine.get(object(rt, machine, of), &fixed(rt, name))
}

fn put<L: Ledger>(
    rt: &impl Abort,
    alloc: Global,
    machine: &mut Machine<'_>,
    of: ObjId,
    name: &'static str,
    value: Value,
    steps: &mut Steps<L>,
) -> Result<(), Fail> {
    assert!(rt; fits(machine, value));
    let of = object(rt, machine, of);
    machine
        .put(alloc, of, &fixed(rt, name), value, steps)
        .map_err(|_| "put")?;
    Ok(())
}

// A machine's request and the prototype above it.
#[derive(Clone, Copy)]
struct Entry {
    request: ObjId,
    up: ObjId,
}

fn enter<L: Ledger>(
    alloc: Global,
    machine: &mut Machine<'_>,
    steps: &mut Steps<L>,
) -> Result<Entry, Fail>
    requires objects { machine.old.objects ≡ [] }
    requires scopes { machine.old.scopes ≡ [] }
{
    first_heap(alloc, machine, 1, steps)?;
    let up = prototype(alloc, machine, steps)?;
    let request = make(alloc, machine, up, steps)?;
    Ok(Entry { request, up })
}

fn add<L: Ledger>(
    rt: &impl Abort,
    alloc: Global,
    machine: &mut Machine<'_>,
    entry: &Entry,
    given: Given,
    steps: &mut Steps<L>,
) -> Result<Value, Fail> {
    Ok(match given {
        Given::Undefined => Value::Undefined,
        Given::Null => Value::Null,
        Given::Num(number) => Value::Num(number),
        Given::Str(text) => Value::Str(machine.add_text(fixed(rt, text))?),
        Given::Object => {
            let made = machine.new_object(alloc, Class::Object, None, Inner::Plain, steps)?;
            let method = read(rt, machine, entry.request, "return");
            put(rt, alloc, machine, made, "toString", method, steps)?;
            Value::Obj(made)
        }
    })
}

// The value, which is one of the machine's.
fn checked(rt: &impl Abort, machine: &Machine<'_>, value: Value) -> Value
    ensures same { result ≡ value }
    ensures fits { FitsValue (sizes machine.now) value }
{
    assert!(rt; fits(machine, value));
    value
}

// Calls `return` with two values.
fn returned<L: Ledger>(
    rt: &impl Abort,
    alloc: Global,
    caller: &mut Answering,
    machine: &mut Machine<'_>,
    this: Value,
    status: Value,
    text: Value,
    steps: &mut Steps<L>,
) -> Result<Value, Stop> {
    assert!(rt; machine.sizes().0 >= 13);
    let this = checked(rt, machine, this);
    let status = checked(rt, machine, status);
    let text = checked(rt, machine, text);
    call(
        alloc,
        RETURN,
        caller,
        machine,
        this,
        &[status, text],
        false,
        steps,
    )
}

// Whether a value is an object with this message.
fn has_message(
    rt: &impl Abort,
    machine: &Machine<'_>,
    value: Value,
    message: &'static str,
) -> bool {
    match value {
        Value::Obj(error) => match read(rt, machine, error, "message") {
            Value::Str(id) if id.0 < machine.sizes().2 => machine.text(id).as_str() == message,
            _ => false,
        },
        _ => false,
    }
}

fn is_reply(reply: &Reply, status: u16, body: &str) -> bool {
    reply.status == status
        && reply.kind.as_str() == "text/plain"
        && reply.fields.is_empty()
        && reply.body.as_str() == body
}

fn answering(left: u64) -> Answering {
    Answering {
        left,
        number: 7,
        host: Keeper {
            kept: Record::new(),
        },
    }
}

// Whether a call answered with this status and body.
fn answers(answer: Result<Value, Stop>, caller: Answering, status: u16, body: &str) -> bool {
    match &caller.into_reply() {
        Some(reply) => answer == Ok(Value::Undefined) && is_reply(reply, status, body),
        None => false,
    }
}

// Whether a call threw an error with this message.
fn is_error(
    rt: &impl Abort,
    machine: &Machine<'_>,
    answer: Result<Value, Stop>,
    message: &'static str,
) -> bool {
    match answer {
        Err(Stop::Throw(value)) => has_message(rt, machine, value, message),
        _ => false,
    }
}

// Whether a call threw an error with this message, and nothing is answered.
fn throws(
    rt: &impl Abort,
    machine: &Machine<'_>,
    answer: Result<Value, Stop>,
    caller: Answering,
    message: &'static str,
) -> bool {
    is_error(rt, machine, answer, message) && caller.into_reply().is_none()
}

// A number, and whether it is a status that is answered.
type Case = (i64, bool);

const STATUSES: &[Case] = &[
    (-200, false),
    (99, false),
    (199, false),
    (200, true),
    (201, true),
    (204, false),
    (300, true),
    (301, false),
    (302, false),
    (303, false),
    (304, false),
    (305, true),
    (307, false),
    (308, false),
    (404, true),
    (599, true),
    (600, false),
    (1000, false),
    (65736, false),
];

fn status_case<L: Ledger>(
    rt: &impl Abort,
    alloc: Global,
    case: Case,
    steps: &mut Steps<L>,
) -> Result<(), Fail> {
    let (number, is_answered) = case;
    let wanted = u16::try_from(number).unwrap_or(0);
    let shared = Shared::empty(alloc);
    let mut machine = Machine::clone_of(alloc, &shared);
    let entry = enter(alloc, &mut machine, steps)?;
    let this = Value::Obj(entry.request);
    let status = Value::Num(number);
    let mut caller = answering(1);
    let answer = returned(
        rt,
        alloc,
        &mut caller,
        &mut machine,
        this,
        status,
        Value::Null,
        steps,
    );
    if is_answered {
        assert!(rt; answers(answer, caller, wanted, "null"));
    } else {
        assert!(rt; throws(rt, &machine, answer, caller, "argument range"));
    }
    Ok(())
}

fn statuses<L: Ledger>(
    rt: &impl Abort,
    alloc: Global,
    cases: &[Case],
    blank: Blank,
) -> Result<(), Fail>
    requires name { blank.name ≡ L.name }
    requires parts { blank.parts ≡ L.parts }
    requires some { 0 < L.parts }
{
    let mut steps = Steps::<L>::new(blank);
    for case in cases {
        status_case(rt, alloc, *case, &mut steps)?;
    }
    Ok(())
}

#[test]
fn final_statuses_are_answered(rt: HostRuntime) -> Result<(), Fail> {
    statuses::<Brand>(&rt, rt.alloc(), STATUSES, Blank::new(1))
}

// A text as it is given, and the body that it is.
type Body = (Given, &'static str);

const BODIES: &[Body] = &[
    (Given::Undefined, ""),
    (Given::Null, "null"),
    (Given::Num(-7), "-7"),
    (Given::Str("Hello world!"), "Hello world!"),
    (Given::Object, "7"),
];

// The call of a method takes the second tick, and what it answers is replaced.
fn body_case<L: Ledger>(
    rt: &impl Abort,
    alloc: Global,
    case: Body,
    steps: &mut Steps<L>,
) -> Result<(), Fail> {
    let (given, body) = case;
    let shared = Shared::empty(alloc);
    let mut machine = Machine::clone_of(alloc, &shared);
    let entry = enter(alloc, &mut machine, steps)?;
    let this = Value::Obj(entry.request);
    let text = add(rt, alloc, &mut machine, &entry, given, steps)?;
    let mut caller = answering(2);
    let status = Value::Num(200);
    let answer = returned(
        rt,
        alloc,
        &mut caller,
        &mut machine,
        this,
        status,
        text,
        steps,
    );
    assert!(rt; answers(answer, caller, 200, body));
    Ok(())
}

fn bodies<L: Ledger>(
    rt: &impl Abort,
    alloc: Global,
    cases: &[Body],
    blank: Blank,
) -> Result<(), Fail>
    requires name { blank.name ≡ L.name }
    requires parts { blank.parts ≡ L.parts }
    requires some { 0 < L.parts }
{
    let mut steps = Steps::<L>::new(blank);
    for case in cases {
        body_case(rt, alloc, *case, &mut steps)?;
    }
    Ok(())
}

#[test]
fn a_text_is_the_body(rt: HostRuntime) -> Result<(), Fail> {
    bodies::<Brand>(&rt, rt.alloc(), BODIES, Blank::new(1))
}

// Whose method is called.
#[derive(Clone, Copy)]
enum Receiver {
    Request,
    Prototype,
    Number,
}

// A receiver, a status, and the message of the error.
type Refusal = (Receiver, Given, &'static str);

const REFUSALS: &[Refusal] = &[
    (Receiver::Prototype, Given::Num(99), "wrong receiver"),
    (Receiver::Number, Given::Num(200), "wrong receiver"),
    (Receiver::Request, Given::Undefined, "not a number"),
    (Receiver::Request, Given::Str("ok"), "not a number"),
];

fn this_of(entry: &Entry, receiver: Receiver) -> Value {
    match receiver {
        Receiver::Request => Value::Obj(entry.request),
        Receiver::Prototype => Value::Obj(entry.up),
        Receiver::Number => Value::Num(1),
    }
}

fn refusal_case<L: Ledger>(
    rt: &impl Abort,
    alloc: Global,
    case: Refusal,
    steps: &mut Steps<L>,
) -> Result<(), Fail> {
    let (receiver, given, message) = case;
    let shared = Shared::empty(alloc);
    let mut machine = Machine::clone_of(alloc, &shared);
    let entry = enter(alloc, &mut machine, steps)?;
    let this = this_of(&entry, receiver);
    let status = add(rt, alloc, &mut machine, &entry, given, steps)?;
    let mut caller = answering(1);
    let answer = returned(
        rt,
        alloc,
        &mut caller,
        &mut machine,
        this,
        status,
        Value::Null,
        steps,
    );
    assert!(rt; throws(rt, &machine, answer, caller, message));
    Ok(())
}

fn refusals<L: Ledger>(
    rt: &impl Abort,
    alloc: Global,
    cases: &[Refusal],
    blank: Blank,
) -> Result<(), Fail>
    requires name { blank.name ≡ L.name }
    requires parts { blank.parts ≡ L.parts }
    requires some { 0 < L.parts }
{
    let mut steps = Steps::<L>::new(blank);
    for case in cases {
        refusal_case(rt, alloc, *case, &mut steps)?;
    }
    Ok(())
}

#[test]
fn what_is_no_answer_is_refused(rt: HostRuntime) -> Result<(), Fail> {
    refusals::<Brand>(&rt, rt.alloc(), REFUSALS, Blank::new(1))
}

// A call without arguments.
fn without_arguments<L: Ledger>(rt: &impl Abort, alloc: Global, blank: Blank) -> Result<(), Fail>
    requires name { blank.name ≡ L.name }
    requires parts { blank.parts ≡ L.parts }
    requires some { 0 < L.parts }
{
    let mut steps = Steps::<L>::new(blank);
    let shared = Shared::empty(alloc);
    let mut machine = Machine::clone_of(alloc, &shared);
    let entry = enter(alloc, &mut machine, &mut steps)?;
    assert!(rt; machine.sizes().0 >= 13);
    let this = checked(rt, &machine, Value::Obj(entry.request));
    let mut caller = answering(1);
    let answer = call(
        alloc,
        RETURN,
        &mut caller,
        &mut machine,
        this,
        &[],
        false,
        &mut steps,
    );
    assert!(rt; throws(rt, &machine, answer, caller, "not a number"));
    Ok(())
}

#[test]
fn a_status_is_wanted(rt: HostRuntime) -> Result<(), Fail> {
    without_arguments::<Brand>(&rt, rt.alloc(), Blank::new(1))
}

// Two calls, of which the second is answered here.
fn twice<L: Ledger>(
    rt: &impl Abort,
    alloc: Global,
    caller: &mut Answering,
    machine: &mut Machine<'_>,
    this: Value,
    text: Value,
    steps: &mut Steps<L>,
) -> Result<Value, Stop> {
    let first = returned(
        rt,
        alloc,
        caller,
        machine,
        this,
        Value::Num(200),
        Value::Null,
        steps,
    );
    assert!(rt; first == Ok(Value::Undefined));
    returned(
        rt,
        alloc,
        caller,
        machine,
        this,
        Value::Num(500),
        text,
        steps,
    )
}

// The second throws before it converts anything, and leaves the answer of the first.
fn second_case<L: Ledger>(
    rt: &impl Abort,
    alloc: Global,
    steps: &mut Steps<L>,
) -> Result<(), Fail> {
    let shared = Shared::empty(alloc);
    let mut machine = Machine::clone_of(alloc, &shared);
    let entry = enter(alloc, &mut machine, steps)?;
    let this = Value::Obj(entry.request);
    let text = add(rt, alloc, &mut machine, &entry, Given::Object, steps)?;
    let mut caller = answering(3);
    let second = twice(rt, alloc, &mut caller, &mut machine, this, text, steps);
    assert!(rt; is_error(rt, &machine, second, "response state"));
    assert!(rt; caller.left == 1);
    assert!(rt; answers(Ok(Value::Undefined), caller, 200, "null"));
    Ok(())
}

fn second_call<L: Ledger>(rt: &impl Abort, alloc: Global, blank: Blank) -> Result<(), Fail>
    requires name { blank.name ≡ L.name }
    requires parts { blank.parts ≡ L.parts }
    requires some { 0 < L.parts }
{
    let mut steps = Steps::<L>::new(blank);
    second_case(rt, alloc, &mut steps)
}

#[test]
fn there_is_one_answer(rt: HostRuntime) -> Result<(), Fail> {
    second_call::<Brand>(&rt, rt.alloc(), Blank::new(1))
}

// A call takes a tick, or says that there is none.
fn spent_case<L: Ledger>(rt: &impl Abort, alloc: Global, steps: &mut Steps<L>) -> Result<(), Fail> {
    let shared = Shared::empty(alloc);
    let mut machine = Machine::clone_of(alloc, &shared);
    let entry = enter(alloc, &mut machine, steps)?;
    let this = Value::Obj(entry.request);
    let mut caller = answering(0);
    let status = Value::Num(200);
    let answer = returned(
        rt,
        alloc,
        &mut caller,
        &mut machine,
        this,
        status,
        Value::Null,
        steps,
    );
    assert!(rt; answer == Err(Stop::Fuel));
    assert!(rt; !can_construct(RETURN));
    Ok(())
}

fn spent<L: Ledger>(rt: &impl Abort, alloc: Global, blank: Blank) -> Result<(), Fail>
    requires name { blank.name ≡ L.name }
    requires parts { blank.parts ≡ L.parts }
    requires some { 0 < L.parts }
{
    let mut steps = Steps::<L>::new(blank);
    spent_case(rt, alloc, &mut steps)
}

#[test]
fn a_call_takes_a_tick(rt: HostRuntime) -> Result<(), Fail> {
    spent::<Brand>(&rt, rt.alloc(), Blank::new(1))
}

fn entry_objects<L: Ledger>(rt: &impl Abort, alloc: Global, blank: Blank) -> Result<(), Fail>
    requires name { blank.name ≡ L.name }
    requires parts { blank.parts ≡ L.parts }
    requires some { 0 < L.parts }
{
    let mut steps = Steps::<L>::new(blank);
    let shared = Shared::empty(alloc);
    let mut machine = Machine::clone_of(alloc, &shared);
    let entry = enter(alloc, &mut machine, &mut steps)?;
    assert!(rt; entry.up == ObjId(14));
    assert!(rt; entry.request == ObjId(15));
    let request = object(rt, &machine, entry.request);
    assert!(rt; machine.object(request).class == Class::Request);
    assert!(rt; machine.own(request, &fixed(rt, "return")).is_none());
    assert!(rt; read(rt, &machine, entry.request, "return") == Value::Obj(ObjId(13)));
    assert!(rt; read(rt, &machine, ObjId(13), "length") == Value::Num(1));
    assert!(rt; read(rt, &machine, ObjId(13), "prototype") == Value::Undefined);
    Ok(())
}

#[test]
fn a_request_has_its_method(rt: HostRuntime) -> Result<(), Fail> {
    entry_objects::<Brand>(&rt, rt.alloc(), Blank::new(1))
}
