// ToString (ECMA-262 5.1 §9.8).
ghost use Rattle.std.specs.Prelude.{◌≡◌, ◌≤◌, ◌<◌, ℕ, length, IfOk, OnErr};
ghost use Rattle.njs_shared.specs.Heap.{sizes};
ghost use Rattle.njs_shared.specs.Fits.{FitsValue};
ghost use Rattle.njs_clone.specs.Content.{content};
ghost use Rattle.njs_meaning.specs.Running.{Calls};
ghost use Rattle.njs_meaning.specs.Replies.{Known};
ghost use Rattle.njs_meaning.specs.Errors.{first_count};
ghost use Rattle.njs_meaning.specs.Conversions.{to_text};
ghost use Rattle.njs_convert.specs.Tells.{Means, Counts, ShowsText, Grows, Extends, FitsAnswer, FitsSimple, FitsText};
ghost use Rattle.njs_convert.specs.Texts.{IsShown, shown_text, HasText};

use crate::{Caller, Hint, Stop, to_primitive};
use njs_clone::Machine;
use njs_ops::{Prim, text_of};
use njs_text::{NoMemory, Steps, Text};
use njs_value::{TextId, Value};
use std::alloc::Global;
use std::sync::ledger::Ledger;

// The text of a value that is no text and no object.
fn shown(alloc: Global, value: Value) -> Result<Text, NoMemory>
    requires { IsShown value }
    ensures { IfOk result (λ text. text ≡ shown_text value) }
{
    match value {
        Value::Undefined => text_of(alloc, Prim::Undefined),
        Value::Null => text_of(alloc, Prim::Null),
        Value::Bool(truth) => text_of(alloc, Prim::Bool(truth)),
        Value::Num(number) => text_of(alloc, Prim::Num(number)),
        Value::Str(_) => unreachable!(),
        Value::Obj(_) => unreachable!(),
    }
}

// Gives the text of a value a number.
fn added(alloc: Global, machine: &mut Machine<'_>, value: Value) -> Result<TextId, NoMemory>
    requires { IsShown value }
    ensures text { IfOk result (HasText machine.old machine.new value) }
    ensures extends { Extends machine.old machine.new }
{
    let _sizes = machine.sizes();
    let text = shown(alloc, value)?;
    machine.add_text(text)
}

// The number of the text of a value that is no object.
fn text_id(alloc: Global, machine: &mut Machine<'_>, value: Value) -> Result<TextId, NoMemory>
    requires { FitsSimple (sizes machine.old) value }
    ensures text { IfOk result (HasText machine.old machine.new value) }
    ensures extends { Extends machine.old machine.new }
{
    match value {
        Value::Str(text) => Ok(text),
        Value::Undefined => added(alloc, machine, Value::Undefined),
        Value::Null => added(alloc, machine, Value::Null),
        Value::Bool(truth) => added(alloc, machine, Value::Bool(truth)),
        Value::Num(number) => added(alloc, machine, Value::Num(number)),
        Value::Obj(_) => unreachable!(),
    }
}

/// ToString (ECMA-262 5.1 §9.8): the number of a text. It throws what `to_primitive` throws.
pub fn to_text<C: Caller<L>, L: Ledger>(
    alloc: Global,
    caller: &mut C,
    machine: &mut Machine<'_>,
    value: Value,
    steps: &mut Steps<L>,
) -> Result<TextId, Stop>
    requires may { C.may_call caller.old }
    requires fits { C.fits caller.old machine.old }
    requires first { first_count ≤ length machine.old.objects }
    requires value { FitsValue (sizes machine.old) value }
    ensures told { (calls : Calls) (k : Known) → C.follows caller.old k calls → C.agrees caller.new k → Means (C.stands caller.old k machine.old) (C.stands caller.new k machine.new) (C.stopped caller.new k) machine.new.texts (ShowsText machine.new.texts) result (to_text calls.call (content machine.old.texts value)) }
    ensures kept { (calls : Calls) (k : Known) → C.follows caller.old k calls → C.follows caller.new k calls }
    ensures agrees { (k : Known) → C.agrees caller.new k → C.agrees caller.old k }
    ensures may { C.may_call caller.new }
    ensures fits { C.fits caller.new machine.new }
    ensures same { C.lent caller.new ≡ C.lent caller.old }
    ensures grows { Grows machine.old machine.new }
    ensures value { FitsAnswer (FitsText (sizes machine.new)) (sizes machine.new) result }
    ensures spent { C.ticks_of caller.new ≤ C.ticks_of caller.old }
    ensures steps { Counts (C.adds caller.old steps.old caller.new) steps.new result }
{
    let primitive = match to_primitive(alloc, caller, machine, value, Hint::Text, steps) {
        Ok(primitive) => primitive,
        Err(stop) => return Err(stop),
    };
    match text_id(alloc, machine, primitive) {
        Ok(text) => Ok(text),
        Err(_) => Err(Stop::NoMemory),
    }
}
