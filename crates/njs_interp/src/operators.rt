// The operators over any values (ECMA-262 5.1 §11.3 to §11.11).
ghost use Rattle.std.specs.Prelude.{◌≡◌, ◌≤◌, length};
ghost use Rattle.njs_shared.specs.Heap.{sizes};
ghost use Rattle.njs_shared.specs.Fits.{FitsValue};
ghost use Rattle.njs_clone.specs.Content.{content};
ghost use Rattle.njs_meaning.specs.Errors.{first_count};
ghost use Rattle.njs_meaning.specs.Running.{Calls};
ghost use Rattle.njs_meaning.specs.Replies.{Known};
ghost use Rattle.njs_meaning.specs.Operations.{binary, unary};
ghost use Rattle.njs_convert.specs.Tells.{Means, Counts, ShowsValue, Grows, FitsAnswer};

mod equality;
mod groups;
mod numbers;
mod objects;
mod plain;
mod relations;
mod sums;
mod updates;

use groups::{Group, group_of};
use njs_clone::Machine;
use njs_convert::{Caller, Stop, to_boolean};
use njs_members::is_same;
use njs_text::Steps;
use njs_tree::{BinaryOp, UnaryOp};
use njs_value::Value;
pub(crate) use plain::text_value;
use std::alloc::Global;
use std::sync::ledger::Ledger;
pub(crate) use updates::stepped_from;

/// An operator of two values (ECMA-262 5.1 §11.5 to §11.11). What is no number, text or object is made one first, the left
/// before the right. Two numbers call nothing, and take memory for an error alone.
pub fn binary<C: Caller<L>, L: Ledger>(
    alloc: Global,
    caller: &mut C,
    machine: &mut Machine<'_>,
    op: BinaryOp,
    left: Value,
    right: Value,
    steps: &mut Steps<L>,
) -> Result<Value, Stop>
    requires may { C.may_call caller.old }
    requires fits { C.fits caller.old machine.old }
    requires first { first_count ≤ length machine.old.objects }
    requires left { FitsValue (sizes machine.old) left }
    requires right { FitsValue (sizes machine.old) right }
    ensures told { (calls : Calls) (k : Known) → C.follows caller.old k calls → C.agrees caller.new k → Means (C.stands caller.old k machine.old) (C.stands caller.new k machine.new) (C.stopped caller.new k) machine.new.texts (ShowsValue machine.new.texts) result (binary calls.call op (content machine.old.texts left) (content machine.old.texts right)) }
    ensures kept { (calls : Calls) (k : Known) → C.follows caller.old k calls → C.follows caller.new k calls }
    ensures agrees { (k : Known) → C.agrees caller.new k → C.agrees caller.old k }
    ensures may { C.may_call caller.new }
    ensures fits { C.fits caller.new machine.new }
    ensures same { C.lent caller.new ≡ C.lent caller.old }
    ensures grows { Grows machine.old machine.new }
    ensures value { FitsAnswer (FitsValue (sizes machine.new)) (sizes machine.new) result }
    ensures spent { C.ticks_of caller.new ≤ C.ticks_of caller.old }
    ensures steps { Counts (C.adds caller.old steps.old caller.new) steps.new result }
{
    if let (Value::Num(_), Value::Num(_)) = (left, right) {
        return plain::of_two(alloc, machine, op, left, right, steps);
    }
    match group_of(op) {
        Group::Sum => sums::added(alloc, caller, machine, op, left, right, steps),
        Group::Equality => equality::is_equal(alloc, caller, machine, op, left, right, steps),
        Group::Inequality => equality::is_unequal(alloc, caller, machine, op, left, right, steps),
        Group::Identity => Ok(Value::Bool(is_same(machine, left, right))),
        Group::Difference => Ok(Value::Bool(!is_same(machine, left, right))),
        Group::Relation => relations::on_primitives(alloc, caller, machine, op, left, right, steps),
        Group::Instance => objects::instance_of(alloc, machine, left, right, steps),
        Group::Member => objects::is_in(alloc, caller, machine, op, left, right, steps),
        Group::Numbers => numbers::on_numbers(alloc, caller, machine, op, left, right, steps),
    }
}

/// An operator of one value (ECMA-262 5.1 §11.4). `delete` is that of a value that is no member of an object.
pub fn unary<C: Caller<L>, L: Ledger>(
    alloc: Global,
    caller: &mut C,
    machine: &mut Machine<'_>,
    op: UnaryOp,
    value: Value,
    steps: &mut Steps<L>,
) -> Result<Value, Stop>
    requires may { C.may_call caller.old }
    requires fits { C.fits caller.old machine.old }
    requires first { first_count ≤ length machine.old.objects }
    requires value { FitsValue (sizes machine.old) value }
    ensures told { (calls : Calls) (k : Known) → C.follows caller.old k calls → C.agrees caller.new k → Means (C.stands caller.old k machine.old) (C.stands caller.new k machine.new) (C.stopped caller.new k) machine.new.texts (ShowsValue machine.new.texts) result (unary calls.call op (content machine.old.texts value)) }
    ensures kept { (calls : Calls) (k : Known) → C.follows caller.old k calls → C.follows caller.new k calls }
    ensures agrees { (k : Known) → C.agrees caller.new k → C.agrees caller.old k }
    ensures may { C.may_call caller.new }
    ensures fits { C.fits caller.new machine.new }
    ensures same { C.lent caller.new ≡ C.lent caller.old }
    ensures grows { Grows machine.old machine.new }
    ensures value { FitsAnswer (FitsValue (sizes machine.new)) (sizes machine.new) result }
    ensures spent { C.ticks_of caller.new ≤ C.ticks_of caller.old }
    ensures steps { Counts (C.adds caller.old steps.old caller.new) steps.new result }
{
    match op {
        UnaryOp::Delete => Ok(Value::Bool(true)),
        UnaryOp::Void => Ok(Value::Undefined),
        UnaryOp::TypeOf => objects::type_of(alloc, machine, value, steps),
        UnaryOp::Plus => numbers::on_number(alloc, caller, machine, UnaryOp::Plus, value, steps),
        UnaryOp::Minus => numbers::on_number(alloc, caller, machine, UnaryOp::Minus, value, steps),
        UnaryOp::BitNot => numbers::on_number(
            alloc,
            caller,
            machine,
            UnaryOp::BitNot,
            value,
            steps,
        ),
        UnaryOp::Not => Ok(Value::Bool(!to_boolean(machine, value))),
    }
}
