// What the method `return` of a request does.
ghost use Rattle.std.specs.Prelude.{◌≡◌, ◌≤◌, ◌<◌, ℕ, List, length, map};
ghost use Rattle.std.specs.List.{AllByRecursion};
ghost use Rattle.njs_shared.specs.Heap.{Heap, Sizes, sizes};
ghost use Rattle.njs_shared.specs.Fits.{FitsValue};
ghost use Rattle.njs_clone.specs.Content.{content};
ghost use Rattle.njs_clone.specs.StandsFor.{plain_objects};
ghost use Rattle.njs_meaning.specs.State.{State};
ghost use Rattle.njs_meaning.specs.Running.{Calls};
ghost use Rattle.njs_meaning.specs.Replies.{Known};
ghost use Rattle.njs_meaning.specs.Errors.{first_count};
ghost use Rattle.njs_convert.specs.Tells.{Means, Counts, ShowsValue, Grows, FitsAnswer, AnyNumber};
ghost use Rattle.njs_request.specs.Response.{is_open, KeepsResponse};
ghost use Rattle.njs_request.specs.Return.{argument, optional_text, is_request_class, is_request, whole, answer_text, answer_status, answer_on};
ghost use Rattle.njs_request.specs.Tells.{ShowsContent, is_undefined, AnyText};

use crate::HasRecord;
use crate::record::Head;
use crate::status::status_from;
use njs_clone::Machine;
use njs_convert::{Caller, HostCaller, Stop, throw, to_number, to_text};
use njs_text::{Steps, Text};
use njs_value::{Cause, Class, Value};
use std::alloc::Global;
use std::sync::ledger::Ledger;

// An argument by its place; one that is missing is undefined.
pub(crate) fn argument(args: &[Value], place: usize) -> Value
    ensures value { (texts : List (List ℕ)) → content texts result ≡ argument place (map (content texts) args.now) }
    ensures fits { (n : Sizes) → AllByRecursion (FitsValue n) args.now → FitsValue n result }
{
    match args.get(place) {
        Some(value) => *value,
        None => Value::Undefined,
    }
}

fn is_undefined(value: Value) -> bool
    ensures { result ≡ is_undefined value }
{
    matches!(value, Value::Undefined)
}

// The text of an argument that may be left out.
fn optional_text<C: Caller<L>, L: Ledger>(
    alloc: Global,
    caller: &mut C,
    machine: &mut Machine<'_>,
    value: Value,
    steps: &mut Steps<L>,
) -> Result<Text, Stop>
    requires may { C.may_call caller.old }
    requires fits { C.fits caller.old machine.old }
    requires first { first_count ≤ length machine.old.objects }
    requires value { FitsValue (sizes machine.old) value }
    ensures told { (calls : Calls) (k : Known) → C.follows caller.old k calls → C.agrees caller.new k → Means (C.stands caller.old k machine.old) (C.stands caller.new k machine.new) (C.stopped caller.new k) machine.new.texts ShowsContent result (optional_text calls.call (content machine.old.texts value)) }
    ensures kept { (calls : Calls) (k : Known) → C.follows caller.old k calls → C.follows caller.new k calls }
    ensures agrees { (k : Known) → C.agrees caller.new k → C.agrees caller.old k }
    ensures may { C.may_call caller.new }
    ensures fits { C.fits caller.new machine.new }
    ensures same { C.lent caller.new ≡ C.lent caller.old }
    ensures grows { Grows machine.old machine.new }
    ensures value { FitsAnswer AnyText (sizes machine.new) result }
    ensures spent { C.ticks_of caller.new ≤ C.ticks_of caller.old }
    ensures steps { Counts (C.adds caller.old steps.old caller.new) steps.new result }
{
    if is_undefined(value) {
        return Ok(Text::fixed(""));
    }
    let text = match to_text(alloc, caller, machine, value, steps) {
        Ok(text) => text,
        Err(stop) => return Err(stop),
    };
    match machine.text(text).copy(alloc) {
        Ok(text) => Ok(text),
        Err(_) => Err(Stop::NoMemory),
    }
}

// Whether nothing is answered yet in the record of a host.
fn is_open_at<H: HasRecord>(host: &mut H) -> bool
    ensures is { result ≡ is_open (H.response_of host.old) }
    ensures same { host.new ≡ host.old }
{
    host.kept().is_open()
}

// The same, where a caller lends the host.
fn is_open<H: HasRecord, C: HostCaller<H, L>, L: Ledger>(caller: &mut C) -> bool
    ensures is { result ≡ is_open (H.response_of (C.host_of caller.old)) }
    ensures same { caller.new ≡ caller.old }
{
    is_open_at(caller.host())
}

// Writes a whole answer into the record of a host, whatever was answered before.
fn write_at<H: HasRecord>(host: &mut H, head: Head, body: Text)
    ensures { host.new ≡ H.with_response host.old (whole head body) }
{
    host.kept().answer(head, body);
}

// The same, where a caller lends the host.
fn write<H: HasRecord, C: HostCaller<H, L>, L: Ledger>(caller: &mut C, head: Head, body: Text)
    ensures { caller.new ≡ C.with_host caller.old (H.with_response (C.host_of caller.old) (whole head body)) }
{
    write_at(caller.host(), head, body);
}

// The same, as the caller's part of a run.
fn answer<H: HasRecord, C: HostCaller<H, L>, L: Ledger>(caller: &mut C, head: Head, body: Text)
    requires host { KeepsResponse H.response_of H.with_response C.keeps C.agreed C.same_zones }
    ensures stands { (k : Known) (h : Heap) (s : State) → C.stands caller.old k h s → C.stands caller.new k h (record s { response = whole head body }) }
    ensures kept { (calls : Calls) (k : Known) → C.follows caller.old k calls → C.follows caller.new k calls }
    ensures agrees { (k : Known) → C.agrees caller.new k → C.agrees caller.old k }
    ensures may { C.may_call caller.old → C.may_call caller.new }
    ensures fits { (h : Heap) → C.fits caller.old h → C.fits caller.new h }
    ensures same { C.lent caller.new ≡ C.lent caller.old }
    ensures ticks { C.ticks_of caller.new ≡ C.ticks_of caller.old }
    ensures steps { (n : ℕ) → C.adds caller.old n caller.new n }
{
    write(caller, head, body);
}

// Answers with this head and the text of an argument.
fn answer_text<H: HasRecord, C: HostCaller<H, L>, L: Ledger>(
    alloc: Global,
    caller: &mut C,
    machine: &mut Machine<'_>,
    head: Head,
    text: Value,
    steps: &mut Steps<L>,
) -> Result<Value, Stop>
    requires host { KeepsResponse H.response_of H.with_response C.keeps C.agreed C.same_zones }
    requires may { C.may_call caller.old }
    requires fits { C.fits caller.old machine.old }
    requires first { first_count ≤ length machine.old.objects }
    requires text { FitsValue (sizes machine.old) text }
    ensures told { (calls : Calls) (k : Known) → C.follows caller.old k calls → C.agrees caller.new k → Means (C.stands caller.old k machine.old) (C.stands caller.new k machine.new) (C.stopped caller.new k) machine.new.texts (ShowsValue machine.new.texts) result (answer_text calls.call head (content machine.old.texts text)) }
    ensures kept { (calls : Calls) (k : Known) → C.follows caller.old k calls → C.follows caller.new k calls }
    ensures agrees { (k : Known) → C.agrees caller.new k → C.agrees caller.old k }
    ensures may { C.may_call caller.new }
    ensures fits { C.fits caller.new machine.new }
    ensures same { C.lent caller.new ≡ C.lent caller.old }
    ensures grows { Grows machine.old machine.new }
    ensures value { FitsAnswer (FitsValue (sizes machine.new)) (sizes machine.new) result }
    ensures spent { C.ticks_of caller.new ≤ C.ticks_of caller.old }
    ensures steps { Counts (C.adds caller.old steps.old caller.new) steps.new result }
{
    let body = match optional_text(alloc, caller, machine, text, steps) {
        Ok(body) => body,
        Err(stop) => return Err(stop),
    };
    answer(caller, head, body);
    Ok(Value::Undefined)
}

// Answers with the status that an argument is, and the text of another.
fn answer_status<H: HasRecord, C: HostCaller<H, L>, L: Ledger>(
    alloc: Global,
    caller: &mut C,
    machine: &mut Machine<'_>,
    status: Value,
    text: Value,
    steps: &mut Steps<L>,
) -> Result<Value, Stop>
    requires host { KeepsResponse H.response_of H.with_response C.keeps C.agreed C.same_zones }
    requires may { C.may_call caller.old }
    requires fits { C.fits caller.old machine.old }
    requires first { first_count ≤ length machine.old.objects }
    requires status { FitsValue (sizes machine.old) status }
    requires text { FitsValue (sizes machine.old) text }
    ensures told { (calls : Calls) (k : Known) → C.follows caller.old k calls → C.agrees caller.new k → Means (C.stands caller.old k machine.old) (C.stands caller.new k machine.new) (C.stopped caller.new k) machine.new.texts (ShowsValue machine.new.texts) result (answer_status calls.call (content machine.old.texts status) (content machine.old.texts text)) }
    ensures kept { (calls : Calls) (k : Known) → C.follows caller.old k calls → C.follows caller.new k calls }
    ensures agrees { (k : Known) → C.agrees caller.new k → C.agrees caller.old k }
    ensures may { C.may_call caller.new }
    ensures fits { C.fits caller.new machine.new }
    ensures same { C.lent caller.new ≡ C.lent caller.old }
    ensures grows { Grows machine.old machine.new }
    ensures value { FitsAnswer (FitsValue (sizes machine.new)) (sizes machine.new) result }
    ensures spent { C.ticks_of caller.new ≤ C.ticks_of caller.old }
    ensures steps { Counts (C.adds caller.old steps.old caller.new) steps.new result }
{
    let number = match to_number(alloc, caller, machine, status, steps) {
        Ok(number) => number,
        Err(stop) => return Err(stop),
    };
    match status_from(number) {
        Some(status) => {
            let head = Head::plain(alloc, status);
            answer_text(alloc, caller, machine, head, text, steps)
        }
        None => Err(throw(alloc, machine, Cause::BadArgument, steps)),
    }
}

fn is_request_class(class: Class) -> bool
    ensures { result ≡ is_request_class class }
{
    matches!(class, Class::Request)
}

// Whether a value is a request.
fn is_request(machine: &Machine<'_>, value: Value) -> bool
    requires { FitsValue (sizes machine.now) value }
    ensures { result ≡ is_request (plain_objects machine.now) (content machine.now.texts value) }
{
    match value {
        Value::Obj(object) => is_request_class(machine.object(object).class),
        Value::Undefined | Value::Null | Value::Bool(_) | Value::Num(_) | Value::Str(_) => false,
    }
}

/// Answers a request with the status that an argument is and the text of another.
pub(crate) fn answer_on<H: HasRecord, C: HostCaller<H, L>, L: Ledger>(
    alloc: Global,
    caller: &mut C,
    machine: &mut Machine<'_>,
    this: Value,
    status: Value,
    text: Value,
    steps: &mut Steps<L>,
) -> Result<Value, Stop>
    requires host { KeepsResponse H.response_of H.with_response C.keeps C.agreed C.same_zones }
    requires may { C.may_call caller.old }
    requires fits { C.fits caller.old machine.old }
    requires first { first_count ≤ length machine.old.objects }
    requires this { FitsValue (sizes machine.old) this }
    requires status { FitsValue (sizes machine.old) status }
    requires text { FitsValue (sizes machine.old) text }
    ensures told { (calls : Calls) (k : Known) → C.follows caller.old k calls → C.agrees caller.new k → Means (C.stands caller.old k machine.old) (C.stands caller.new k machine.new) (C.stopped caller.new k) machine.new.texts (ShowsValue machine.new.texts) result (answer_on calls.call (content machine.old.texts this) (content machine.old.texts status) (content machine.old.texts text)) }
    ensures kept { (calls : Calls) (k : Known) → C.follows caller.old k calls → C.follows caller.new k calls }
    ensures agrees { (k : Known) → C.agrees caller.new k → C.agrees caller.old k }
    ensures may { C.may_call caller.new }
    ensures fits { C.fits caller.new machine.new }
    ensures same { C.lent caller.new ≡ C.lent caller.old }
    ensures grows { Grows machine.old machine.new }
    ensures value { FitsAnswer (FitsValue (sizes machine.new)) (sizes machine.new) result }
    ensures spent { C.ticks_of caller.new ≤ C.ticks_of caller.old }
    ensures steps { Counts (C.adds caller.old steps.old caller.new) steps.new result }
{
    if !is_request(machine, this) {
        return Err(throw(alloc, machine, Cause::WrongReceiver, steps));
    }
    if !is_open(caller) {
        return Err(throw(alloc, machine, Cause::ResponseState, steps));
    }
    answer_status(alloc, caller, machine, status, text, steps)
}
