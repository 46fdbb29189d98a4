// Relations (ECMA-262 5.1 §11.8).
ghost use Rattle.std.specs.Prelude.{◌≡◌, ◌≤◌, length};
ghost use Rattle.njs_shared.specs.Heap.{sizes};
ghost use Rattle.njs_shared.specs.Fits.{FitsValue};
ghost use Rattle.njs_clone.specs.Content.{content};
ghost use Rattle.njs_meaning.specs.Errors.{first_count};
ghost use Rattle.njs_meaning.specs.Running.{Calls};
ghost use Rattle.njs_meaning.specs.Replies.{Known};
ghost use Rattle.njs_meaning.specs.Operations.{binary};
ghost use Rattle.njs_convert.specs.Tells.{Means, Counts, ShowsValue, Grows, FitsAnswer};
ghost use Rattle.njs_interp.specs.Alone.{group_of};
ghost use Rattle.njs_interp.specs.declared.operators.groups.Group.TheVariants as group;

use crate::operators::plain::of_two;
use njs_clone::Machine;
use njs_convert::{Caller, Hint, Stop, to_primitive};
use njs_text::Steps;
use njs_tree::BinaryOp;
use njs_value::Value;
use std::alloc::Global;
use std::sync::ledger::Ledger;

/// Both values are made values that are no objects, the left before the right (ECMA-262 5.1 §11.8.5).
pub fn on_primitives<C: Caller<L>, L: Ledger>(
    alloc: Global,
    caller: &mut C,
    machine: &mut Machine<'_>,
    op: BinaryOp,
    left: Value,
    right: Value,
    steps: &mut Steps<L>,
) -> Result<Value, Stop>
    requires may { C.may_call caller.old }
    requires fits { C.fits caller.old machine.old }
    requires first { first_count ≤ length machine.old.objects }
    requires left { FitsValue (sizes machine.old) left }
    requires right { FitsValue (sizes machine.old) right }
    requires op { group_of op ≡ group.Relation }
    ensures told { (calls : Calls) (k : Known) → C.follows caller.old k calls → C.agrees caller.new k → Means (C.stands caller.old k machine.old) (C.stands caller.new k machine.new) (C.stopped caller.new k) machine.new.texts (ShowsValue machine.new.texts) result (binary calls.call op (content machine.old.texts left) (content machine.old.texts right)) }
    ensures kept { (calls : Calls) (k : Known) → C.follows caller.old k calls → C.follows caller.new k calls }
    ensures agrees { (k : Known) → C.agrees caller.new k → C.agrees caller.old k }
    ensures may { C.may_call caller.new }
    ensures fits { C.fits caller.new machine.new }
    ensures same { C.lent caller.new ≡ C.lent caller.old }
    ensures grows { Grows machine.old machine.new }
    ensures value { FitsAnswer (FitsValue (sizes machine.new)) (sizes machine.new) result }
    ensures spent { C.ticks_of caller.new ≤ C.ticks_of caller.old }
    ensures steps { Counts (C.adds caller.old steps.old caller.new) steps.new result }
{
    let first = match to_primitive(alloc, caller, machine, left, Hint::Number, steps) {
        Ok(first) => first,
        Err(stop) => return Err(stop),
    };
    let second = match to_primitive(alloc, caller, machine, right, Hint::Number, steps) {
        Ok(second) => second,
        Err(stop) => return Err(stop),
    };
    of_two(alloc, machine, op, first, second, steps)
}
