// The interpreter's own caller at work: what an object that is called leads to.
ghost use Rattle.std.specs.Prelude.{◌≡◌, ◌≤◌, ◌<◌, ℕ, List, length, map};
ghost use Rattle.std.specs.List.{AllByRecursion};
ghost use Rattle.njs_shared.specs.Heap.{sizes};
ghost use Rattle.njs_shared.specs.Fits.{FitsValue};
ghost use Rattle.njs_clone.specs.Content.{content};
ghost use Rattle.njs_meaning.specs.Functions.{Program};
ghost use Rattle.njs_meaning.specs.Replies.{Known};
ghost use Rattle.njs_meaning.specs.Running.{Calls};
ghost use Rattle.njs_convert.specs.Tells.{Means, ShowsValue, Grows, FitsAnswer};
ghost use Rattle.njs_interp.specs.Hosts.{counts_of, FitsProgram};
ghost use Rattle.njs_interp.specs.Standing.{Stands, Holds, FitsWay};
ghost use Rattle.njs_interp.specs.Calling.{IsProgram, row_by, entered, lent_by, Entered};

use crate::enter::{Scripted, bound_way, enter_bound, enter_script, joined, refusal};
use crate::own::{Again, Own};
use crate::{Host, Way};
use njs_clone::Machine;
use njs_code::ValidCode;
use njs_convert::{Stop, throw};
use njs_shared::Inner;
use njs_text::Steps;
use njs_value::{ObjId, Row, Value};
use std::alloc::Global;
use std::sync::ledger::Ledger;

// Calls a built-in function, or makes an object by it.
pub(crate) fn enter_built_in<H: Host, L: Ledger, A: Again<H, Steps<L>>>(
    alloc: Global,
    row: Row,
    way: Way,
    args: &[Value],
    own: &mut Own<'_, H, A>,
    machine: &mut Machine<'_>,
    steps: &mut Steps<L>,
) -> Result<Value, Stop>
    requires row { H.rows row }
    requires way { FitsWay (sizes machine.old) way }
    requires args { AllByRecursion (FitsValue (sizes machine.old)) args.now }
    requires may { A.may own.old.run }
    requires fits { FitsProgram H.rows (H.zones own.old.host.now) (A.counts own.old.run) machine.old }
    ensures told { (calls : Calls) (k : Known) → A.follows own.old.run k calls → H.agrees own.new.host.now k → Means (Stands (H.keeps own.old.host.now) own.old.fuel.now.left k machine.old) (Stands (H.keeps own.new.host.now) own.new.fuel.now.left k machine.new) (H.halted own.new.host.now k) machine.new.texts (ShowsValue machine.new.texts) result (row_by H.means calls machine.old.texts way row (map (content machine.old.texts) args.now)) }
    ensures kept { (calls : Calls) (k : Known) → A.follows own.old.run k calls → A.follows own.new.run k calls }
    ensures same { lent_by own.new.fuel.ghost_name own.new.host.ghost_name (A.counts own.new.run) ≡ lent_by own.old.fuel.ghost_name own.old.host.ghost_name (A.counts own.old.run) }
    ensures may { A.may own.new.run }
    ensures entered { Entered H.rows (A.counts own.new.run) (H.agrees own.old.host.now) (H.agrees own.new.host.now) (H.zones own.new.host.now) machine.old machine.new result own.old.fuel.now.left own.new.fuel.now.left steps.old steps.new }
{
    match way {
        Way::Call(this) => { H::built_in(alloc, row, own, machine, this, args, false, steps) }
        Way::New => {
            let this = Value::Undefined;
            H::built_in(alloc, row, own, machine, this, args, true, steps)
        }
    }
}

/// Calls an object that may be called so, by what it is beside its properties (ECMA-262 5.1 §13.2.1, §13.2.2, §15.3.4.5).
pub(crate) fn enter<H: Host, L: Ledger, A: Again<H, Steps<L>>>(
    alloc: Global,
    codes: &[ValidCode],
    object: ObjId,
    way: Way,
    args: &[Value],
    own: &mut Own<'_, H, A>,
    machine: &mut Machine<'_>,
    steps: &mut Steps<L>,
) -> Result<Value, Stop>
    requires object { object.0 < length machine.old.objects }
    requires way { FitsWay (sizes machine.old) way }
    requires args { AllByRecursion (FitsValue (sizes machine.old)) args.now }
    requires counts { A.counts own.old.run ≡ counts_of codes.now }
    requires may { A.may own.old.run }
    requires fits { FitsProgram H.rows (H.zones own.old.host.now) (counts_of codes.now) machine.old }
    ensures told { (calls : Calls) (k : Known) (program : Program) → IsProgram H.means H.constructs codes.now k program → A.follows own.old.run k calls → H.agrees own.new.host.now k → Means (Stands (H.keeps own.old.host.now) own.old.fuel.now.left k machine.old) (Holds (H.keeps own.new.host.now) own.new.fuel.now.left k machine.new) (H.halted own.new.host.now k) machine.new.texts (ShowsValue machine.new.texts) result (entered program calls machine.old.texts way object.0 (map (content machine.old.texts) args.now)) }
    ensures same { lent_by own.new.fuel.ghost_name own.new.host.ghost_name (A.counts own.new.run) ≡ lent_by own.old.fuel.ghost_name own.old.host.ghost_name (A.counts own.old.run) }
    ensures entered { Entered H.rows (counts_of codes.now) (H.agrees own.old.host.now) (H.agrees own.new.host.now) (H.zones own.new.host.now) machine.old machine.new result own.old.fuel.now.left own.new.fuel.now.left steps.old steps.new }
{
    let _sizes = machine.sizes();
    match &machine.object(object).inner {
        Inner::Script {
            module,
            code,
            scope,
        } => {
            let script = Scripted {
                unit: *module,
                number: *code,
                scope: *scope,
            };
            enter_script(alloc, codes, script, object, way, args, own, machine, steps)
        }
        Inner::BuiltIn(row) => {
            let row = *row;
            enter_built_in(alloc, row, way, args, own, machine, steps)
        }
        Inner::Bound {
            target,
            this,
            args: first,
        } => {
            let target = *target;
            let way = bound_way(way, *this);
            match joined(alloc, first.as_slice(), args) {
                Ok(all) => { enter_bound(alloc, target, way, all.as_slice(), own, machine, steps) }
                Err(_) => Err(Stop::NoMemory),
            }
        }
        Inner::Plain | Inner::ZoneNumber(_) => Err(throw(alloc, machine, refusal(way), steps)),
    }
}
