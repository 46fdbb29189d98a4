// The object of a request and its prototype.
ghost use Rattle.std.specs.Prelude.{◌≡◌, ◌≤◌, ◌<◌, ◌+◌, ◌++◌, ◌∷◌, [], Some, length, map, codes, IfOk, OnOk, OnErr};
ghost use Rattle.njs_value.specs.declared.Class.TheVariants as class;
ghost use Rattle.njs_props.specs.Names.{length_name};
ghost use Rattle.njs_shared.specs.Heap.{sizes};
ghost use Rattle.njs_clone.specs.Created.{with_object_of};
ghost use Rattle.njs_clone.specs.StandsFor.{plain_objects};
ghost use Rattle.njs_meaning.specs.Errors.{first_count};
ghost use Rattle.njs_convert.specs.Tells.{Grows};
ghost use Rattle.njs_request.specs.Rows.{return_row};
ghost use Rattle.njs_request.specs.EntryObjects.{length_props, prototype_props, with_prototype, with_request};

use crate::RETURN;
use njs_clone::Machine;
use njs_meaning::Prototype;
use njs_props::PropMap;
use njs_shared::Inner;
use njs_text::{NoMemory, Steps, Text};
use njs_value::{Class, Flags, ObjId, Value};
use std::alloc::Global;
use std::sync::ledger::Ledger;

const NO_FLAGS: Flags = Flags {
    writable: false,
    enumerable: false,
    configurable: false,
};

const HIDDEN: Flags = Flags {
    writable: true,
    enumerable: false,
    configurable: true,
};

fn length_text() -> Text
    ensures { result ≡ length_name }
{
    Text::fixed("length")
}

fn return_text() -> Text
    ensures { result ≡ codes "return" }
{
    Text::fixed("return")
}

// The properties of a built-in function with so many parameters.
fn length_props(alloc: Global, params: u32) -> Result<PropMap<Value>, NoMemory>
    ensures { IfOk result (λ props. props ≡ length_props params) }
{
    let mut props = PropMap::new(alloc);
    props.insert(length_text(), Value::Num(i64::from(params)), NO_FLAGS)?;
    Ok(props)
}

// The properties of the prototype.
fn prototype_props(alloc: Global, function: ObjId) -> Result<PropMap<Value>, NoMemory>
    ensures { IfOk result (λ props. props ≡ prototype_props function) }
{
    let mut props = PropMap::new(alloc);
    props.insert(return_text(), Value::Obj(function), HIDDEN)?;
    Ok(props)
}

// The function `return`.
fn return_function<L: Ledger>(
    alloc: Global,
    machine: &mut Machine<'_>,
    steps: &mut Steps<L>,
) -> Result<ObjId, NoMemory>
    requires first { first_count ≤ length machine.old.objects }
    ensures number { IfOk result (λ object. object.0 ≡ length machine.old.objects) }
    ensures ok { OnOk result (machine.new ≡ record machine.old { objects = with_object_of class.Function (Some (record { 0 = 1 })) (length_props 1) (Inner.BuiltIn return_row) machine.old.objects }) }
    ensures err { OnErr result (machine.new ≡ machine.old) }
    ensures cell { OnOk result (steps.new ≡ steps.old + 1) }
    ensures no_cell { OnErr result (steps.new ≡ steps.old) }
{
    let _sizes = machine.sizes();
    let props = match length_props(alloc, 1) {
        Ok(props) => props,
        Err(_) => return Err(NoMemory),
    };
    let up = ObjId(Prototype::Function.place());
    machine.new_object_with(
        Class::Function,
        Some(up),
        props,
        Inner::BuiltIn(RETURN),
        steps,
    )
}

// The object that the methods stand on.
fn methods_object<L: Ledger>(
    alloc: Global,
    machine: &mut Machine<'_>,
    function: ObjId,
    steps: &mut Steps<L>,
) -> Result<ObjId, NoMemory>
    requires first { first_count ≤ length machine.old.objects }
    requires function { function.0 < length machine.old.objects }
    ensures number { IfOk result (λ object. object.0 ≡ length machine.old.objects) }
    ensures ok { OnOk result (machine.new ≡ record machine.old { objects = with_object_of class.Object (Some (record { 0 = 0 })) (prototype_props function) Inner.Plain machine.old.objects }) }
    ensures err { OnErr result (machine.new ≡ machine.old) }
    ensures cell { OnOk result (steps.new ≡ steps.old + 1) }
    ensures no_cell { OnErr result (steps.new ≡ steps.old) }
{
    let _sizes = machine.sizes();
    let props = match prototype_props(alloc, function) {
        Ok(props) => props,
        Err(_) => return Err(NoMemory),
    };
    let up = ObjId(Prototype::Object.place());
    machine.new_object_with(Class::Object, Some(up), props, Inner::Plain, steps)
}

/// Makes the prototype of requests, which has their methods. The answer is its number. After want of memory the machine is only
/// thrown away.
pub fn prototype<L: Ledger>(
    alloc: Global,
    machine: &mut Machine<'_>,
    steps: &mut Steps<L>,
) -> Result<ObjId, NoMemory>
    requires first { first_count ≤ length machine.old.objects }
    ensures made { OnOk result (plain_objects machine.new ≡ with_prototype (plain_objects machine.old)) }
    ensures number { IfOk result (λ object. object.0 ≡ length machine.old.objects + 1) }
    ensures within { IfOk result (λ object. object.0 < length machine.new.objects) }

    // What they are beside their properties: the built-in function of the row, and an ordinary object.
    ensures inner { OnOk result (map (λ o. o.inner) machine.new.objects ≡ map (λ o. o.inner) machine.old.objects ++ Inner.BuiltIn return_row ∷ Inner.Plain ∷ []) }
    ensures scopes { machine.new.scopes ≡ machine.old.scopes }
    ensures grows { Grows machine.old machine.new }
    ensures cells { OnOk result (steps.new ≡ steps.old + 2) }
    ensures up { (steps.old ≤ steps.new) × (steps.new ≤ steps.old + 2) }
{
    let function = return_function(alloc, machine, steps)?;
    methods_object(alloc, machine, function, steps)
}

/// Makes the object of a request, below the prototype of requests. The answer is its number. It has no properties of its own
/// yet.
pub fn make<L: Ledger>(
    alloc: Global,
    machine: &mut Machine<'_>,
    prototype: ObjId,
    steps: &mut Steps<L>,
) -> Result<ObjId, NoMemory>
    requires { prototype.0 < length machine.old.objects }
    ensures made { OnOk result (plain_objects machine.new ≡ with_request prototype (plain_objects machine.old)) }
    ensures number { IfOk result (λ object. object.0 ≡ length machine.old.objects) }
    ensures within { IfOk result (λ object. object.0 < length machine.new.objects) }

    // It is ordinary beside its properties.
    ensures inner { OnOk result (map (λ o. o.inner) machine.new.objects ≡ map (λ o. o.inner) machine.old.objects ++ Inner.Plain ∷ []) }
    ensures scopes { machine.new.scopes ≡ machine.old.scopes }
    ensures grows { Grows machine.old machine.new }
    ensures cell { OnOk result (steps.new ≡ steps.old + 1) }
    ensures no_cell { OnErr result (steps.new ≡ steps.old) }
{
    machine.new_object(alloc, Class::Request, Some(prototype), Inner::Plain, steps)
}
