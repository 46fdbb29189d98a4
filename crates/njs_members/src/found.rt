// What is found on the chain of prototypes behind a value.
ghost use Rattle.std.specs.Prelude.{◌≡◌, ◌≤◌, ◌<◌, length, is_some, false};
ghost use Rattle.std.specs.Option.{option_map_or};
ghost use Rattle.njs_shared.specs.Heap.{sizes};
ghost use Rattle.njs_shared.specs.Fits.{FitsValue};
ghost use Rattle.njs_clone.specs.Content.{content};
ghost use Rattle.njs_clone.specs.StandsFor.{plain_objects};
ghost use Rattle.njs_meaning.specs.Primitives.{Undefined};
ghost use Rattle.njs_meaning.specs.Values.{Simple};
ghost use Rattle.njs_meaning.specs.Chains.{get, nearest, chain, first_found, own};
ghost use Rattle.njs_meaning.specs.Errors.{first_count};
ghost use Rattle.njs_members.specs.Starts.{start_of};

use crate::starts::start_of;
use njs_clone::Machine;
use njs_text::Text;
use njs_value::{ObjId, Value};

// The value that a name reads there.
pub(crate) fn inherited(machine: &Machine<'_>, base: Value, name: &Text) -> Value
    requires first { first_count ≤ length machine.now.objects }
    requires base { FitsValue (sizes machine.now) base }
    ensures value { content machine.now.texts result ≡ option_map_or (get (Simple Undefined) name.now (plain_objects machine.now)) (start_of (content machine.now.texts base)) (Simple Undefined) }
    ensures fits { FitsValue (sizes machine.now) result }
{
    match start_of(machine, base) {
        None => Value::Undefined,
        Some(start) => machine.get(start, name),
    }
}

// Whether an object or one of the first ones on its chain has a property.
pub(crate) fn has_within(machine: &Machine<'_>, object: ObjId, name: &Text, count: u32) -> bool
    requires { object.0 < length machine.now.objects }
    ensures { result ≡ is_some (first_found (own name.now) (chain count (plain_objects machine.now) object.0)) }
{
    let mut at = object;
    for step in 0..count {
        let object = machine.object(at);
        if object.props.get(name).is_some() {
            return true;
        }
        let Some(up) = object.prototype else {
            return false;
        };
        at = up;
    }
    false
}

// Whether a property is there (ECMA-262 5.1 §8.12.6).
pub(crate) fn is_found(machine: &Machine<'_>, base: Value, name: &Text) -> bool
    requires first { first_count ≤ length machine.now.objects }
    requires base { FitsValue (sizes machine.now) base }
    ensures { result ≡ option_map_or (λ at. is_some (nearest name.now (plain_objects machine.now) at)) (start_of (content machine.now.texts base)) false }
{
    match start_of(machine, base) {
        None => false,
        Some(start) => has_within(machine, start, name, machine.sizes().0),
    }
}
