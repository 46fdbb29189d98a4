// The heap that every run begins with (ECMA-262 5.1 §15).
ghost use Rattle.std.specs.Prelude.{◌≡◌, ◌≤◌, ◌<◌, ◌+◌, [], ◌∷◌, ◌++◌, List, ℕ, Bool, true, length, codes, IfOk, OnOk, OnErr};
ghost use Rattle.std.specs.Option.{option_map, ForSome};
ghost use Rattle.std.specs.Str.{chars};
ghost use Rattle.njs_clone.specs.StandsFor.{plain_objects};
ghost use Rattle.njs_meaning.specs.Errors.{place_of, first_count};
ghost use Rattle.njs_convert.specs.FirstHeap.{object_of, global_variables, error_prototype, first_heap, StandsFor};
ghost use Rattle.njs_convert.specs.FirstRows.{named_props, with_plain, made, HasMade, rows_fit, row_fits};
ghost use Rattle.njs_convert.specs.Tells.{Grows};

use crate::errors::{HIDDEN, message_name};
use njs_clone::{Machine, operations_go_by_content};
use njs_meaning::Prototype;
use njs_props::PropMap;
use njs_shared::Inner;
use njs_text::{NoMemory, Steps, Text};
use njs_value::{Class, ObjId, TextId, Value};
use std::alloc::Global;
use std::sync::ledger::Ledger;

// An object, and the prototype above it, which is the object of an earlier row.
#[derive(Clone, Copy)]
enum FirstObject {
    // What a new object of a class has.
    Plain(Class, Option<Prototype>),
    // A prototype of errors, with their name and no message.
    Errors(Prototype, &'static str),
}

const OBJECTS: [FirstObject; 13] = [
    FirstObject::Plain(Class::Object, None),
    FirstObject::Plain(Class::Object, Some(Prototype::Object)),
    FirstObject::Plain(Class::Array, Some(Prototype::Object)),
    FirstObject::Plain(Class::Object, Some(Prototype::Object)),
    FirstObject::Plain(Class::Object, Some(Prototype::Object)),
    FirstObject::Plain(Class::Object, Some(Prototype::Object)),
    FirstObject::Errors(Prototype::Object, "Error"),
    FirstObject::Errors(Prototype::Error, "TypeError"),
    FirstObject::Errors(Prototype::Error, "RangeError"),
    FirstObject::Errors(Prototype::Error, "ReferenceError"),
    FirstObject::Errors(Prototype::Error, "SyntaxError"),
    FirstObject::Errors(Prototype::Error, "URIError"),
    FirstObject::Errors(Prototype::Error, "SharedMemoryError"),
];

fn object_of(up: Option<Prototype>) -> Option<ObjId>
    ensures { result ≡ option_map object_of up }
{
    Some(ObjId(up?.place()))
}

// Makes an object with what a new one of its class has.
fn make_plain<L: Ledger>(
    alloc: Global,
    machine: &mut Machine<'_>,
    class: Class,
    up: Option<Prototype>,
    steps: &mut Steps<L>,
) -> Result<(), NoMemory>
    requires { ForSome up (λ up. place_of up < length machine.old.objects) }
    ensures made { OnOk result (plain_objects machine.new ≡ with_plain class up (plain_objects machine.old)) }
    ensures count { OnOk result (length machine.new.objects ≡ length machine.old.objects + 1) }
    ensures scopes { machine.new.scopes ≡ machine.old.scopes }
    ensures grows { Grows machine.old machine.new }
    ensures cell { OnOk result (steps.new ≡ steps.old + 1) }
    ensures no_cell { OnErr result (steps.new ≡ steps.old) }
{
    operations_go_by_content();
    machine.new_object(alloc, class, object_of(up), Inner::Plain, steps)?;
    Ok(())
}

// The name `name`. It takes no memory.
fn name_name() -> Text
    ensures { result ≡ codes "name" }
{
    Text::fixed("name")
}

// The properties of a prototype of errors.
fn named_props(alloc: Global, name: TextId, message: TextId) -> Result<PropMap<Value>, NoMemory>
    ensures { IfOk result (λ props. props ≡ named_props (Value.Str name) (Value.Str message)) }
{
    let mut props = PropMap::new(alloc);
    props.insert(name_name(), Value::Str(name), HIDDEN)?;
    props.insert(message_name(), Value::Str(message), HIDDEN)?;
    Ok(props)
}

// Makes a prototype of errors.
fn make_errors<L: Ledger>(
    alloc: Global,
    machine: &mut Machine<'_>,
    up: Prototype,
    name: &'static str,
    steps: &mut Steps<L>,
) -> Result<(), NoMemory>
    requires up { place_of up < length machine.old.objects }
    requires name { length name.now ≤ 32 }
    ensures made { OnOk result (plain_objects machine.new ≡ plain_objects machine.old ++ error_prototype up (chars name.now) ∷ []) }
    ensures count { OnOk result (length machine.new.objects ≡ length machine.old.objects + 1) }
    ensures scopes { machine.new.scopes ≡ machine.old.scopes }
    ensures grows { Grows machine.old machine.new }
    ensures cell { OnOk result (steps.new ≡ steps.old + 1) }
    ensures no_cell { OnErr result (steps.new ≡ steps.old) }
{
    let _sizes = machine.sizes();
    let name = machine.add_text(Text::fixed(name))?;
    let message = machine.add_text(Text::fixed(""))?;
    let props = named_props(alloc, name, message)?;
    let up = ObjId(up.place());
    machine.new_object_with(Class::Error, Some(up), props, Inner::Plain, steps)?;
    Ok(())
}

// Makes the object of a row.
fn make_object<L: Ledger>(
    alloc: Global,
    machine: &mut Machine<'_>,
    row: FirstObject,
    steps: &mut Steps<L>,
) -> Result<(), NoMemory>
    requires { row_fits (length machine.old.objects) row ≡ true }
    ensures made { OnOk result (plain_objects machine.new ≡ made (plain_objects machine.old) row) }
    ensures count { OnOk result (length machine.new.objects ≡ length machine.old.objects + 1) }
    ensures scopes { machine.new.scopes ≡ machine.old.scopes }
    ensures grows { Grows machine.old machine.new }
    ensures cell { OnOk result (steps.new ≡ steps.old + 1) }
    ensures no_cell { OnErr result (steps.new ≡ steps.old) }
{
    match row {
        FirstObject::Plain(class, up) => make_plain(alloc, machine, class, up, steps),
        FirstObject::Errors(up, name) => make_errors(alloc, machine, up, name, steps),
    }
}

// Makes the objects of a table, one behind another.
fn make_objects<L: Ledger>(
    alloc: Global,
    machine: &mut Machine<'_>,
    rows: &[FirstObject],
    steps: &mut Steps<L>,
) -> Result<(), NoMemory>
    requires { rows_fit (length machine.old.objects) rows.now ≡ true }
    ensures made { OnOk result (HasMade rows.now (plain_objects machine.old) (plain_objects machine.new)) }
    ensures count { OnOk result (length machine.new.objects ≡ length machine.old.objects + length rows.now) }
    ensures scopes { machine.new.scopes ≡ machine.old.scopes }
    ensures grows { Grows machine.old machine.new }
    ensures cells { OnOk result (steps.new ≡ steps.old + length rows.now) }
    ensures up { (steps.old ≤ steps.new) × (steps.new ≤ steps.old + length rows.now) }
{
    for row in rows {
        make_object(alloc, machine, *row, steps)?;
    }
    Ok(())
}

/// Makes the heap that every run begins with: the prototypes of the language's objects, each at its place
/// (`Prototype::place`), and the outermost scope with so many slots, of which the first is that of the global name
/// `undefined`; all are undefined. The machine has no object and no scope before. After want of memory it is only thrown
/// away.
pub fn first_heap<L: Ledger>(
    alloc: Global,
    machine: &mut Machine<'_>,
    slots: u32,
    steps: &mut Steps<L>,
) -> Result<(), NoMemory>
    requires objects { machine.old.objects ≡ [] }
    requires scopes { machine.old.scopes ≡ [] }
    requires slots { length global_variables ≤ slots }

    // Whatever names the further slots have.
    ensures stands { OnOk result ((further : List (List ℕ × Bool)) → slots ≡ length global_variables + length further → StandsFor machine.new (first_heap further)) }
    ensures first { OnOk result (length machine.new.objects ≡ first_count) }
    ensures grows { Grows machine.old machine.new }

    // One step for each object, and one for the scope.
    ensures cells { OnOk result (steps.new ≡ steps.old + (first_count + 1)) }
    ensures up { (steps.old ≤ steps.new) × (steps.new ≤ steps.old + (first_count + 1)) }
{
    make_objects(alloc, machine, &OBJECTS, steps)?;
    machine.first_scope(alloc, slots, steps)?;
    Ok(())
}
