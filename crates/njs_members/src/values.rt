// What is asked of values.
ghost use Rattle.std.specs.Prelude.{◌≡◌};
ghost use Rattle.njs_shared.specs.Heap.{sizes};
ghost use Rattle.njs_shared.specs.Fits.{FitsValue};
ghost use Rattle.njs_clone.specs.Content.{content, same_value};
ghost use Rattle.njs_clone.specs.StandsFor.{plain_objects};
ghost use Rattle.njs_meaning.specs.Conversions.{is_callable};
ghost use Rattle.njs_members.specs.Tests.{is_function_part};

use njs_clone::Machine;
use njs_shared::Inner;
use njs_value::Value;

/// Whether two values are the same (ECMA-262 5.1 §9.12): texts by content, and objects by number. It takes no memory.
pub fn is_same(machine: &Machine<'_>, left: Value, right: Value) -> bool
    requires left { FitsValue (sizes machine.now) left }
    requires right { FitsValue (sizes machine.now) right }
    ensures { result ≡ same_value machine.now.texts left right }
{
    match (left, right) {
        (Value::Undefined, Value::Undefined) | (Value::Null, Value::Null) => true,
        (Value::Bool(left), Value::Bool(right)) => left == right,
        (Value::Num(left), Value::Num(right)) => left == right,
        (Value::Str(left), Value::Str(right)) => *machine.text(left) == *machine.text(right),
        (Value::Obj(left), Value::Obj(right)) => left.0 == right.0,
        _ => false,
    }
}

fn is_function(inner: &Inner) -> bool
    ensures { result ≡ is_function_part inner.now }
{
    match inner {
        Inner::Plain | Inner::ZoneNumber(_) => false,
        Inner::Script { .. } | Inner::BuiltIn(_) | Inner::Bound { .. } => true,
    }
}

/// Whether a value can be called (ECMA-262 5.1 §9.11). It takes no memory.
pub fn is_callable(machine: &Machine<'_>, value: Value) -> bool
    requires { FitsValue (sizes machine.now) value }
    ensures { result ≡ is_callable (plain_objects machine.now) (content machine.now.texts value) }
{
    match value {
        Value::Obj(object) => is_function(&machine.object(object).inner),
        Value::Undefined | Value::Null | Value::Bool(_) | Value::Num(_) | Value::Str(_) => false,
    }
}
