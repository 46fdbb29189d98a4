// Runs of bodies, calls and built-in functions, from nothing that runs already.
ghost use Rattle.std.specs.Prelude.{◌≡◌, ◌≤◌, ℕ, List, map};
ghost use Rattle.std.specs.List.{AllByRecursion};
ghost use Rattle.njs_shared.specs.Heap.{sizes};
ghost use Rattle.njs_shared.specs.Fits.{FitsValue};
ghost use Rattle.njs_clone.specs.Content.{content};
ghost use Rattle.njs_meaning.specs.Functions.{Program, calls_at};
ghost use Rattle.njs_meaning.specs.Replies.{Known};
ghost use Rattle.njs_meaning.specs.Running.{Calls};
ghost use Rattle.njs_convert.specs.Tells.{Means, ShowsValue, Grows, FitsAnswer};
ghost use Rattle.njs_interp.specs.Hosts.{counts_of, FitsProgram};
ghost use Rattle.njs_interp.specs.Standing.{Stands, Holds, FitsWay, by_way};
ghost use Rattle.njs_interp.specs.Calling.{IsProgram, lent_by, Entered};
ghost use Rattle.njs_interp.specs.Entries.{StandsIn, entry_by, FitsEntry, answer_of};

use crate::again::enter_built_in;
use crate::entry::{Entry, Outcome, outcome_of, run_body};
use crate::invoke::{ByClosure, invoke};
use crate::own::{Again, Own};
use crate::{Fuel, Host, Way};
use njs_clone::Machine;
use njs_code::ValidCode;
use njs_convert::{Caller, Stop};
use njs_text::Steps;
use njs_value::Value;
use std::alloc::Global;
use std::sync::ledger::Ledger;

// How many calls may be active.
const MAX_CALLS: u32 = 256;

// Begins what is run.
fn enter_entry<H: Host, L: Ledger, A: Again<H, Steps<L>>>(
    alloc: Global,
    codes: &[ValidCode],
    entry: Entry<'_>,
    own: &mut Own<'_, H, A>,
    machine: &mut Machine<'_>,
    steps: &mut Steps<L>,
) -> Result<Value, Stop>
    requires entry { FitsEntry H.rows codes.now machine.old entry }
    requires counts { A.counts own.old.run ≡ counts_of codes.now }
    requires may { A.may own.old.run }
    requires fits { FitsProgram H.rows (H.zones own.old.host.now) (counts_of codes.now) machine.old }
    ensures told { (calls : Calls) (k : Known) (program : Program) (is : IsProgram H.means H.constructs codes.now k program) → A.follows own.old.run k calls → H.agrees own.new.host.now k → Means (StandsIn (H.keeps own.old.host.now) own.old.fuel.now.left k is.of_codes.outermost machine.old) (Holds (H.keeps own.new.host.now) own.new.fuel.now.left k machine.new) (H.halted own.new.host.now k) machine.new.texts (ShowsValue machine.new.texts) result (entry_by program is.of_codes.scripts calls machine.old.texts entry.entry) }
    ensures same { lent_by own.new.fuel.ghost_name own.new.host.ghost_name (A.counts own.new.run) ≡ lent_by own.old.fuel.ghost_name own.old.host.ghost_name (A.counts own.old.run) }
    ensures entered { Entered H.rows (counts_of codes.now) (H.agrees own.old.host.now) (H.agrees own.new.host.now) (H.zones own.new.host.now) machine.old machine.new result own.old.fuel.now.left own.new.fuel.now.left steps.old steps.new }
{
    match entry {
        Entry::Body(unit) => run_body(alloc, codes, unit, own, machine, steps),
        Entry::Call { callee, this, args } => own.call(alloc, machine, callee, this, args, steps),
        Entry::Row { row, this, args } => enter_built_in(
            alloc,
            row,
            Way::Call(this),
            args,
            own,
            machine,
            steps,
        ),
    }
}

/// Runs the body of a module, a call or a built-in function over the code of all modules, in the order of their numbers. At
/// most 256 calls may be active; one more throws the cause `CallDepth`. The value of a body is the one that it exports,
/// undefined where it exports none. `Throw` and `Fuel` come exactly where the meaning gives them; a run may end with `NoMemory`
/// at any time, and then the machine is only thrown away.
pub fn run<H: Host, L: Ledger>(
    alloc: Global,
    codes: &[ValidCode],
    entry: Entry<'_>,
    machine: &mut Machine<'_>,
    fuel: &mut Fuel,
    host: &mut H,
    steps: &mut Steps<L>,
) -> Outcome
    requires fits { FitsProgram H.rows (H.zones host.old) (counts_of codes.now) machine.old }
    requires entry { FitsEntry H.rows codes.now machine.old entry }
    ensures told { (k : Known) (program : Program) (is : IsProgram H.means H.constructs codes.now k program) → H.agrees host.new k → Means (StandsIn (H.keeps host.old) fuel.old.left k is.of_codes.outermost machine.old) (StandsIn (H.keeps host.new) fuel.new.left k is.of_codes.outermost machine.new) (H.halted host.new k) machine.new.texts (ShowsValue machine.new.texts) (answer_of result) (entry_by program is.of_codes.scripts (calls_at program 256) machine.old.texts entry.entry) }
    ensures agrees { (k : Known) → H.agrees host.new k → H.agrees host.old k }
    ensures fits { FitsProgram H.rows (H.zones host.new) (counts_of codes.now) machine.new }
    ensures grows { Grows machine.old machine.new }
    ensures value { FitsAnswer (FitsValue (sizes machine.new)) (sizes machine.new) (answer_of result) }
    ensures spent { fuel.new.left ≤ fuel.old.left }
    ensures steps { steps.old ≤ steps.new }
{
    let run = ByClosure {
        codes,
        call: |alloc: Global, machine: &mut Machine<
            '_,
        >, fuel: &mut Fuel, host: &mut H, callee: Value, way: Way, args: &[Value], steps: &mut Steps<
            L,
        >| -> Result<Value, Stop>
            requires fits { FitsProgram H.rows (H.zones host.old) (counts_of codes.now) machine.old }
            requires callee { FitsValue (sizes machine.old) callee }
            requires way { FitsWay (sizes machine.old) way }
            requires args { AllByRecursion (FitsValue (sizes machine.old)) args.now }
            ensures told { (k : Known) (program : Program) → IsProgram H.means H.constructs codes.entry.now k program → H.agrees host.new k → Means (Stands (H.keeps host.old) fuel.old.left k machine.old) (Stands (H.keeps host.new) fuel.new.left k machine.new) (H.halted host.new k) machine.new.texts (ShowsValue machine.new.texts) result (by_way (calls_at program 256) machine.old.texts way (content machine.old.texts callee) (map (content machine.old.texts) args.now)) }
            ensures entered { Entered H.rows (counts_of codes.entry.now) (H.agrees host.old) (H.agrees host.new) (H.zones host.new) machine.old machine.new result fuel.old.left fuel.new.left steps.old steps.new }
        {
            invoke(
                alloc, codes, machine, fuel, host, callee, way, args, MAX_CALLS, steps,
            )
        },
    };
    let mut own = Own { fuel, host, run };
    outcome_of(enter_entry(alloc, codes, entry, &mut own, machine, steps))
}
