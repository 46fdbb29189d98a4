// Where the members of a value are looked up.
ghost use Rattle.std.specs.Prelude.{◌≡◌, ◌≤◌, ◌<◌, ℕ, List, length, if◌then◌else◌};
ghost use Rattle.std.specs.Option.{option_map, ForSome};
ghost use Rattle.njs_shared.specs.Heap.{sizes};
ghost use Rattle.njs_shared.specs.Fits.{FitsValue};
ghost use Rattle.njs_clone.specs.Content.{content};
ghost use Rattle.njs_value.specs.declared.Cause.TheVariants.{NullBase};
ghost use Rattle.njs_meaning.specs.Values.{PlainValue};
ghost use Rattle.njs_meaning.specs.State.{State, Outcome};
ghost use Rattle.njs_meaning.specs.Errors.{first_count, throw};
ghost use Rattle.njs_meaning.specs.Members.{with_members};
ghost use Rattle.njs_members.specs.Starts.{has_members, start_of};

use njs_clone::Machine;
use njs_meaning::Prototype;
use njs_value::{ObjId, Value};

/// Whether a value has members: all but undefined and null, of which the members can't even be asked for (ECMA-262 5.1
/// §9.10).
pub fn has_members(base: Value) -> bool
    ensures value { result ≡ has_members base }
    ensures told { (texts : List (List ℕ)) (go : State → Outcome PlainValue) (s : State) → with_members (content texts base) go s ≡ if result then go s else throw NullBase s }
{
    !matches!(base, Value::Undefined | Value::Null)
}

// The object that a value takes its members from: an object itself, and else the prototype of its type.
pub(crate) fn start_of(machine: &Machine<'_>, base: Value) -> Option<ObjId>
    requires first { first_count ≤ length machine.now.objects }
    requires base { FitsValue (sizes machine.now) base }
    ensures start { option_map (λ o. o.0) result ≡ start_of (content machine.now.texts base) }
    ensures fits { ForSome result (λ o. o.0 < length machine.now.objects) }
{
    let prototype = match base {
        Value::Undefined | Value::Null => return None,
        Value::Bool(_) => Prototype::Boolean,
        Value::Num(_) => Prototype::Number,
        Value::Str(_) => Prototype::String,
        Value::Obj(object) => return Some(object),
    };
    Some(ObjId(prototype.place()))
}
