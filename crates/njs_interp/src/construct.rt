// Objects that are made by `new` (ECMA-262 5.1 §11.2.2, §13.2.2).
ghost use Rattle.std.specs.Prelude.{◌≡◌, ◌≤◌, ◌<◌, ◌+◌, [], ◌∷◌, ◌++◌, ℕ, List, length, map, IfOk, OnOk};
ghost use Rattle.std.specs.List.{AllByRecursion};
ghost use Rattle.njs_shared.specs.Heap.{Sizes, sizes};
ghost use Rattle.njs_shared.specs.Fits.{FitsValue};
ghost use Rattle.njs_clone.specs.Content.{content};
ghost use Rattle.njs_clone.specs.StandsFor.{plain_objects};
ghost use Rattle.njs_meaning.specs.Chains.{get};
ghost use Rattle.njs_meaning.specs.Errors.{first_count};
ghost use Rattle.njs_meaning.specs.Functions.{Program, prototype_name, prototype_from, new_from, or_made, construct_script, is_constructor};
ghost use Rattle.njs_meaning.specs.Primitives.{Undefined};
ghost use Rattle.njs_meaning.specs.Replies.{Known};
ghost use Rattle.njs_meaning.specs.Running.{Calls};
ghost use Rattle.njs_meaning.specs.Values.{Simple};
ghost use Rattle.njs_convert.specs.Tells.{Means, ShowsValue, FitsAnswer, Extends};
ghost use Rattle.njs_simul.specs.Fits.{Scoped};
ghost use Rattle.njs_interp.specs.Grown.{Widens};
ghost use Rattle.njs_interp.specs.Hosts.{counts_of};
ghost use Rattle.njs_interp.specs.Calling.{CodesOf, StandsThere};

use crate::functions::prototype_text;
use crate::script::call_script;
use crate::{Host, InCall, Runner};
use njs_clone::{Machine, operations_go_by_content};
use njs_code::ValidCode;
use njs_convert::{Caller, Stop};
use njs_meaning::Prototype;
use njs_shared::Inner;
use njs_text::{NoMemory, Steps};
use njs_value::{Class, ObjId, ScopeId, Value};
use std::alloc::Global;
use std::sync::ledger::Ledger;

/// Whether an object can be called by `new`: a bound function where its target can. It takes no memory.
pub(crate) fn is_constructor<H: Host>(machine: &Machine<'_>, object: ObjId) -> bool
    requires { object.0 < length machine.now.objects }
    ensures { (program : Program) → program.constructs ≡ H.constructs → result ≡ is_constructor program (length machine.now.objects) (plain_objects machine.now) object.0 }
{
    let mut at = object;
    for step in 0..machine.sizes().0 {
        match &machine.object(at).inner {
            Inner::Plain => return false,
            Inner::ZoneNumber(_) => return false,
            Inner::Script { .. } => return true,
            Inner::BuiltIn(row) => return H::can_construct(*row),
            Inner::Bound { target, .. } => at = *target,
        }
    }
    false
}

// The prototype of a new object of a function: the object under its `prototype`, if one is there.
fn prototype_of(machine: &Machine<'_>, function: ObjId) -> ObjId
    requires function { function.0 < length machine.now.objects }
    requires first { first_count ≤ length machine.now.objects }
    ensures is { result ≡ prototype_from (get (Simple Undefined) prototype_name (plain_objects machine.now) function.0) }
    ensures within { result.0 < length machine.now.objects }
{
    operations_go_by_content();
    match machine.get(function, &prototype_text()) {
        Value::Obj(prototype) => prototype,
        _ => ObjId(Prototype::Object.place()),
    }
}

// A new object of a function.
fn new_object_of<L: Ledger>(
    alloc: Global,
    machine: &mut Machine<'_>,
    function: ObjId,
    steps: &mut Steps<L>,
) -> Result<ObjId, NoMemory>
    requires function { function.0 < length machine.old.objects }
    requires first { first_count ≤ length machine.old.objects }
    ensures number { IfOk result (λ object. object.0 ≡ length machine.old.objects) }
    ensures made { OnOk result (plain_objects machine.new ≡ plain_objects machine.old ++ new_from (get (Simple Undefined) prototype_name (plain_objects machine.old) function.0) ∷ []) }
    ensures more { OnOk result (length machine.new.objects ≡ length machine.old.objects + 1) }
    ensures extends { Extends machine.old machine.new }
    ensures steps { steps.old ≤ steps.new }
{
    operations_go_by_content();
    let up = prototype_of(machine, function);
    match machine.new_object(alloc, Class::Object, Some(up), Inner::Plain, steps) {
        Ok(object) => Ok(object),
        Err(_) => Err(NoMemory),
    }
}

// An object that was returned takes the place of the one that was made.
fn or_made(made: ObjId, value: Value) -> Value
    ensures shows { (texts : List (List ℕ)) → content texts result ≡ or_made made.0 (content texts value) }
    ensures fits { (n : Sizes) → made.0 < n.objects → FitsValue n value → FitsValue n result }
{
    match value {
        Value::Obj(object) => Value::Obj(object),
        Value::Undefined | Value::Null | Value::Bool(_) | Value::Num(_) | Value::Str(_) => {
            Value::Obj(made)
        }
    }
}

/// Makes an object by a function of a script, which stands in a scope.
pub(crate) fn construct_script<C: Runner<L>, L: Ledger>(
    alloc: Global,
    codes: &[ValidCode],
    unit: u32,
    number: u32,
    scope: ScopeId,
    function: ObjId,
    args: &[Value],
    caller: &mut C,
    machine: &mut Machine<'_>,
    steps: &mut Steps<L>,
) -> Result<Value, Stop>
    requires there { StandsThere (counts_of codes.now) machine.old.scopes unit number scope }
    requires function { function.0 < length machine.old.objects }
    requires args { AllByRecursion (FitsValue (sizes machine.old)) args.now }
    requires counts { (C.lent caller.old).counts ≡ counts_of codes.now }
    requires may { C.may_call caller.old }
    requires fits { C.fits caller.old machine.old }
    requires first { first_count ≤ length machine.old.objects }
    ensures told { (calls : Calls) (k : Known) (program : Program) → CodesOf codes.now k program → C.follows caller.old k calls → C.agrees caller.new k → Means (λ s. C.stands caller.old k machine.old s × Scoped (k.around unit number) s.scopes scope.0) (C.holds caller.new k machine.new) (C.stopped caller.new k) machine.new.texts (ShowsValue machine.new.texts) result (construct_script program calls unit number scope function.0 (map (content machine.old.texts) args.now)) }
    ensures value { FitsAnswer (FitsValue (sizes machine.new)) (sizes machine.new) result }
    ensures kept { (calls : Calls) (k : Known) → C.follows caller.old k calls → C.follows caller.new k calls }
    ensures agrees { (k : Known) → C.agrees caller.new k → C.agrees caller.old k }
    ensures may { C.may_call caller.new }
    ensures fits { C.fits caller.new machine.new }
    ensures same { C.lent caller.new ≡ C.lent caller.old }
    ensures spent { C.ticks_of caller.new ≤ C.ticks_of caller.old }
    ensures widens { Widens machine.old machine.new }
    ensures steps { steps.old ≤ steps.new }
{
    let made = match new_object_of(alloc, machine, function, steps) {
        Ok(made) => made,
        Err(_) => return Err(Stop::NoMemory),
    };
    let call = InCall {
        unit,
        this: Value::Obj(made),
        args,
    };
    match call_script(alloc, codes, &call, number, scope, caller, machine, steps) {
        Ok(value) => Ok(or_made(made, value)),
        Err(stop) => Err(stop),
    }
}
