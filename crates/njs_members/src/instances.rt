// `instanceof` (ECMA-262 5.1 §11.8.6, §15.3.5.3, §15.3.4.5.3).
ghost use Rattle.std.specs.Prelude.{◌≡◌, ◌<◌, length, codes};
ghost use Rattle.std.specs.Option.{option_map};
ghost use Rattle.njs_shared.specs.Ends.{bound_target};
ghost use Rattle.njs_shared.specs.Heap.{sizes};
ghost use Rattle.njs_shared.specs.Fits.{FitsValue};
ghost use Rattle.njs_clone.specs.Content.{content};
ghost use Rattle.njs_clone.specs.StandsFor.{plain_objects};
ghost use Rattle.njs_meaning.specs.Values.{ObjectAt};
ghost use Rattle.njs_meaning.specs.Operations.{target_of, is_behind, instance_of};
ghost use Rattle.njs_members.specs.Tells.{TellsTruth};

use crate::values::is_callable;
use njs_clone::Machine;
use njs_shared::Inner;
use njs_text::Text;
use njs_value::{Cause, ObjId, Value};

// What a function is bound to, if it is bound.
fn bound_target(inner: &Inner) -> Option<ObjId>
    ensures { option_map (λ o. o.0) result ≡ bound_target inner.now }
{
    match inner {
        Inner::Bound { target, .. } => Some(*target),
        Inner::Plain | Inner::Script { .. } | Inner::BuiltIn(_) | Inner::ZoneNumber(_) => None,
    }
}

// The function that a bound function leads to; any other object leads to itself.
fn target_of(machine: &Machine<'_>, function: ObjId) -> ObjId
    requires { function.0 < length machine.now.objects }
    ensures target { result.0 ≡ target_of (length machine.now.objects) (plain_objects machine.now) function.0 }
    ensures within { result.0 < length machine.now.objects }
{
    let mut at = function;
    for step in 0..machine.sizes().0 {
        let Some(target) = bound_target(&machine.object(at).inner) else {
            return at;
        };
        at = target;
    }
    at
}

// Whether an object stands behind another on its chain of prototypes.
fn is_behind(machine: &Machine<'_>, sought: ObjId, object: ObjId) -> bool
    requires { object.0 < length machine.now.objects }
    ensures { result ≡ is_behind (plain_objects machine.now) sought.0 (ObjectAt object.0) }
{
    let mut at = object;
    for step in 0..machine.sizes().0 {
        let Some(up) = machine.object(at).prototype else {
            return false;
        };
        if up.0 == sought.0 {
            return true;
        }
        at = up;
    }
    false
}

fn prototype_name() -> Text
    ensures { result ≡ codes "prototype" }
{
    Text::fixed("prototype")
}

/// Whether a value is an instance of a function (ECMA-262 5.1 §11.8.6), or the cause that is thrown. It takes no memory.
pub fn instance_of(machine: &Machine<'_>, left: Value, right: Value) -> Result<bool, Cause>
    requires left { FitsValue (sizes machine.now) left }
    requires right { FitsValue (sizes machine.now) right }
    ensures { TellsTruth (instance_of (content machine.now.texts left) (content machine.now.texts right)) machine.now result }
{
    let Value::Obj(function) = right else {
        return Err(Cause::NotFunction);
    };
    if !is_callable(machine, right) {
        return Err(Cause::NotFunction);
    }
    let Value::Obj(object) = left else {
        return Ok(false);
    };
    match machine.get(target_of(machine, function), &prototype_name()) {
        Value::Obj(prototype) => Ok(is_behind(machine, prototype, object)),
        _ => Err(Cause::NotObject),
    }
}
