// Calls of objects, by what they are beside their properties (ECMA-262 5.1 §13.2.1, §13.2.2, §15.3.4.5).
ghost use Rattle.std.specs.Prelude.{◌≡◌, ◌≤◌, ◌<◌, [], ◌∷◌, ◌++◌, ℕ, List, length, map, IfOk};
ghost use Rattle.std.specs.List.{AllByRecursion};
ghost use Rattle.njs_shared.specs.Heap.{sizes};
ghost use Rattle.njs_shared.specs.Fits.{FitsValue};
ghost use Rattle.njs_clone.specs.Content.{content};
ghost use Rattle.njs_meaning.specs.Errors.{first_count};
ghost use Rattle.njs_meaning.specs.Functions.{Program};
ghost use Rattle.njs_meaning.specs.Replies.{Known};
ghost use Rattle.njs_meaning.specs.Running.{Calls, charge};
ghost use Rattle.njs_meaning.specs.Values.{ObjectAt};
ghost use Rattle.njs_convert.specs.Tells.{Means, ShowsValue, Grows, FitsAnswer};
ghost use Rattle.njs_simul.specs.Fits.{Scoped};
ghost use Rattle.njs_interp.specs.Grown.{Widens};
ghost use Rattle.njs_interp.specs.Hosts.{counts_of};
ghost use Rattle.njs_interp.specs.Standing.{FitsWay, by_way};
ghost use Rattle.njs_interp.specs.Calling.{CodesOf, StandsThere, script_by, bound_way, refusal, IsEntered};

use crate::construct::{construct_script, is_constructor};
use crate::script::call_script;
use crate::{Host, InCall, Runner, Way};
use njs_clone::Machine;
use njs_code::ValidCode;
use njs_convert::{Caller, Stop};
use njs_members::is_callable;
use njs_text::{NoMemory, Steps};
use njs_value::{Cause, ObjId, ScopeId, Value};
use std::alloc::Global;
use std::sync::ledger::Ledger;

/// A function of a script: its module, its number there, and the scope that it stands in.
#[derive(Clone, Copy)]
pub(crate) struct Scripted {
    pub unit: u32,
    pub number: u32,
    pub scope: ScopeId,
}

// Calls a function of a script, or makes an object by it.
pub(crate) fn enter_script<C: Runner<L>, L: Ledger>(
    alloc: Global,
    codes: &[ValidCode],
    script: Scripted,
    object: ObjId,
    way: Way,
    args: &[Value],
    caller: &mut C,
    machine: &mut Machine<'_>,
    steps: &mut Steps<L>,
) -> Result<Value, Stop>
    requires there { StandsThere (counts_of codes.now) machine.old.scopes script.unit script.number script.scope }
    requires object { object.0 < length machine.old.objects }
    requires way { FitsWay (sizes machine.old) way }
    requires args { AllByRecursion (FitsValue (sizes machine.old)) args.now }
    requires counts { (C.lent caller.old).counts ≡ counts_of codes.now }
    requires may { C.may_call caller.old }
    requires fits { C.fits caller.old machine.old }
    requires first { first_count ≤ length machine.old.objects }
    ensures told { (calls : Calls) (k : Known) (program : Program) → CodesOf codes.now k program → C.follows caller.old k calls → C.agrees caller.new k → Means (λ s. C.stands caller.old k machine.old s × Scoped (k.around script.unit script.number) s.scopes script.scope.0) (C.holds caller.new k machine.new) (C.stopped caller.new k) machine.new.texts (ShowsValue machine.new.texts) result (script_by program calls machine.old.texts way script.unit script.number script.scope object.0 (map (content machine.old.texts) args.now)) }
    ensures value { FitsAnswer (FitsValue (sizes machine.new)) (sizes machine.new) result }
    ensures kept { (calls : Calls) (k : Known) → C.follows caller.old k calls → C.follows caller.new k calls }
    ensures agrees { (k : Known) → C.agrees caller.new k → C.agrees caller.old k }
    ensures may { C.may_call caller.new }
    ensures fits { C.fits caller.new machine.new }
    ensures same { C.lent caller.new ≡ C.lent caller.old }
    ensures spent { C.ticks_of caller.new ≤ C.ticks_of caller.old }
    ensures widens { Widens machine.old machine.new }
    ensures steps { steps.old ≤ steps.new }
{
    let Scripted {
        unit,
        number,
        scope,
    } = script;
    match way {
        Way::Call(this) => {
            let call = InCall { unit, this, args };
            call_script(alloc, codes, &call, number, scope, caller, machine, steps)
        }
        Way::New => construct_script(
            alloc, codes, unit, number, scope, object, args, caller, machine, steps,
        ),
    }
}

// Calls what a bound function leads to, or makes an object by it. It costs a tick.
pub(crate) fn enter_bound<C: Runner<L>, L: Ledger>(
    alloc: Global,
    target: ObjId,
    way: Way,
    args: &[Value],
    caller: &mut C,
    machine: &mut Machine<'_>,
    steps: &mut Steps<L>,
) -> Result<Value, Stop>
    requires target { target.0 < length machine.old.objects }
    requires way { FitsWay (sizes machine.old) way }
    requires args { AllByRecursion (FitsValue (sizes machine.old)) args.now }
    requires may { C.may_call caller.old }
    requires fits { C.fits caller.old machine.old }
    requires first { first_count ≤ length machine.old.objects }
    ensures told { (calls : Calls) (k : Known) → C.follows caller.old k calls → C.agrees caller.new k → Means (C.stands caller.old k machine.old) (C.holds caller.new k machine.new) (C.stopped caller.new k) machine.new.texts (ShowsValue machine.new.texts) result (charge 1 (by_way calls machine.old.texts way (ObjectAt target.0) (map (content machine.old.texts) args.now))) }
    ensures value { FitsAnswer (FitsValue (sizes machine.new)) (sizes machine.new) result }
    ensures kept { (calls : Calls) (k : Known) → C.follows caller.old k calls → C.follows caller.new k calls }
    ensures agrees { (k : Known) → C.agrees caller.new k → C.agrees caller.old k }
    ensures may { C.may_call caller.new }
    ensures fits { C.fits caller.new machine.new }
    ensures same { C.lent caller.new ≡ C.lent caller.old }
    ensures spent { C.ticks_of caller.new ≤ C.ticks_of caller.old }
    ensures grows { Grows machine.old machine.new }
    ensures steps { steps.old ≤ steps.new }
{
    let _sizes = machine.sizes();
    if let Err(stop) = caller.charge(1) {
        return Err(stop);
    }
    match way {
        Way::Call(this) => caller.call(alloc, machine, Value::Obj(target), this, args, steps),
        Way::New => caller.construct(alloc, machine, Value::Obj(target), args, steps),
    }
}

// The arguments of a bound function, and then those of a call of it.
pub(crate) fn joined(alloc: Global, first: &[Value], args: &[Value]) -> Result<Vec<Value>, NoMemory>
    ensures { IfOk result (λ all. all.items ≡ first.now ++ args.now) }
{
    let mut all = Vec::from_slice(alloc, first)?;
    all.extend_from_slice(args)?;
    Ok(all)
}

pub(crate) fn bound_way(way: Way, this: Value) -> Way
    ensures { result ≡ bound_way way this }
{
    match way {
        Way::Call(_) => Way::Call(this),
        Way::New => Way::New,
    }
}

// What is thrown where a value can't be called so.
pub(crate) fn refusal(way: Way) -> Cause
    ensures { result ≡ refusal way }
{
    match way {
        Way::Call(_) => Cause::NotFunction,
        Way::New => Cause::NotConstructor,
    }
}

/// The object that a value is, if it may be called so. It takes no memory.
pub(crate) fn object_to_enter<H: Host>(
    machine: &Machine<'_>,
    callee: Value,
    way: Way,
) -> Option<ObjId>
    requires { FitsValue (sizes machine.now) callee }
    ensures { (program : Program) → program.constructs ≡ H.constructs → IsEntered program machine.now callee way result }
{
    let Value::Obj(object) = callee else {
        return None;
    };
    let may = match way {
        Way::Call(_) => is_callable(machine, callee),
        Way::New => is_constructor::<H>(machine, object),
    };
    if may { Some(object) } else { None }
}
