// The rows of requests in the table of built-in functions.
ghost use Rattle.std.specs.Prelude.{◌≡◌, ◌≤◌, length, map};
ghost use Rattle.std.specs.List.{AllByRecursion};
ghost use Rattle.njs_shared.specs.Heap.{sizes};
ghost use Rattle.njs_shared.specs.Fits.{FitsValue};
ghost use Rattle.njs_clone.specs.Content.{content};
ghost use Rattle.njs_meaning.specs.Running.{Calls};
ghost use Rattle.njs_meaning.specs.Replies.{Known};
ghost use Rattle.njs_meaning.specs.Errors.{first_count};
ghost use Rattle.njs_convert.specs.Tells.{Means, Counts, ShowsValue, Grows, FitsAnswer};
ghost use Rattle.njs_request.specs.Response.{KeepsResponse};
ghost use Rattle.njs_request.specs.Rows.{IsRow, answers, constructs};

use crate::HasRecord;
use crate::answer::{answer_on, argument};
use njs_clone::Machine;
use njs_convert::{HostCaller, Stop};
use njs_text::Steps;
use njs_value::{Row, Value};
use std::alloc::Global;
use std::sync::ledger::Ledger;

/// The row of the method `return`.
pub const RETURN: Row = Row(256);

/// Whether a row of a request's methods may be called by `new` (ECMA-262 5.1 §15).
pub fn can_construct(row: Row) -> bool
    requires { IsRow row }
    ensures { result ≡ constructs row }
{
    false
}

/// Answers a row of a request's methods: `RETURN` (njs reference, `r.return`). A call costs one tick. Whether it came by `new`
/// makes no difference; none of the rows may be called so.
pub fn call<H: HasRecord, C: HostCaller<H, L>, L: Ledger>(
    alloc: Global,
    row: Row,
    caller: &mut C,
    machine: &mut Machine<'_>,
    this: Value,
    args: &[Value],
    made: bool,
    steps: &mut Steps<L>,
) -> Result<Value, Stop>
    requires row { IsRow row }
    requires host { KeepsResponse H.response_of H.with_response C.keeps C.agreed C.same_zones }
    requires may { C.may_call caller.old }
    requires fits { C.fits caller.old machine.old }
    requires first { first_count ≤ length machine.old.objects }
    requires this { FitsValue (sizes machine.old) this }
    requires args { AllByRecursion (FitsValue (sizes machine.old)) args.now }
    ensures told { (calls : Calls) (k : Known) → C.follows caller.old k calls → C.agrees caller.new k → Means (C.stands caller.old k machine.old) (C.stands caller.new k machine.new) (C.stopped caller.new k) machine.new.texts (ShowsValue machine.new.texts) result (answers calls row (content machine.old.texts this) (map (content machine.old.texts) args.now) made) }
    ensures kept { (calls : Calls) (k : Known) → C.follows caller.old k calls → C.follows caller.new k calls }
    ensures agrees { (k : Known) → C.agrees caller.new k → C.agrees caller.old k }
    ensures may { C.may_call caller.new }
    ensures fits { C.fits caller.new machine.new }
    ensures same { C.lent caller.new ≡ C.lent caller.old }
    ensures grows { Grows machine.old machine.new }
    ensures value { FitsAnswer (FitsValue (sizes machine.new)) (sizes machine.new) result }
    ensures spent { C.ticks_of caller.new ≤ C.ticks_of caller.old }
    ensures steps { Counts (C.adds caller.old steps.old caller.new) steps.new result }
{
    match caller.charge(1) {
        Ok(()) => {}
        Err(stop) => return Err(stop),
    }
    let status = argument(args, 0);
    let text = argument(args, 1);
    answer_on(alloc, caller, machine, this, status, text, steps)
}
