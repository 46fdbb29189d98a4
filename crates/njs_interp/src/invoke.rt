// Calls of any value, of which only so many may be active.
ghost use Rattle.std.specs.Prelude.{◌≡◌, ◌≤◌, ◌<◌, ℕ, List, length, map};
ghost use Rattle.std.specs.List.{AllByRecursion};
ghost use Rattle.njs_shared.specs.Heap.{sizes};
ghost use Rattle.njs_shared.specs.Fits.{FitsValue};
ghost use Rattle.njs_clone.specs.Content.{content};
ghost use Rattle.njs_meaning.specs.Functions.{Program, calls_at};
ghost use Rattle.njs_meaning.specs.Replies.{Known};
ghost use Rattle.njs_convert.specs.Tells.{Means, ShowsValue};
ghost use Rattle.njs_simul.specs.Fits.{CallsFare};
ghost use Rattle.njs_interp.specs.Hosts.{counts_of, FitsProgram};
ghost use Rattle.njs_interp.specs.Standing.{Stands, FitsWay, by_way, CallsKeep};
ghost use Rattle.njs_interp.specs.Calling.{IsProgram, Entered};

use crate::again::enter;
use crate::enter::{object_to_enter, refusal};
use crate::own::{Again, Counter, Own};
use crate::{Fuel, Host, Way};
use njs_clone::Machine;
use njs_code::ValidCode;
use njs_convert::{Stop, throw};
use njs_text::Steps;
use njs_value::{Cause, Value};
use std::alloc::Global;
use std::sync::ledger::Ledger;

// A run that is entered again by a closure.
#[derive(Drop)]
pub(crate) struct ByClosure<'a, F> {
    pub codes: &'a [ValidCode],
    pub call: F,
}

impl<
    'a,
    H: Host,
    S: Counter,
    F: Fn(
        Global,
        &mut Machine<'_>,
        &mut Fuel,
        &mut H,
        Value,
        Way,
        &[Value],
        &mut S,
    ) -> Result<Value, Stop>,
> Again<H, S> for ByClosure<'a, F> {
    ghost follows = { λ by k calls. CallsFare k.around calls × ((h : H) → CallsKeep (H.halted h k) calls) × ((alloc : _) (m : _) (f : _) (h : _) (callee : _) (way : _) (args : _) (steps : _) (r : _) (m' : _) (f' : _) (h' : _) (steps' : _) → F.post by.call alloc m f h callee way args steps r m' f' h' steps' → H.agrees h'.now k → Means (Stands (H.keeps h.now) f.now.left k m.now) (Stands (H.keeps h'.now) f'.now.left k m'.now) (H.halted h'.now k) m'.now.texts (ShowsValue m'.now.texts) r (by_way calls m.now.texts way (content m.now.texts callee) (map (content m.now.texts) args.now))) };

    ghost counts = { λ by. counts_of by.codes.now };

    ghost may = { λ by. (alloc : _) (m : _) (f : _) (h : _) (callee : _) (way : _) (args : _) (steps : _) → FitsProgram H.rows (H.zones h.now) (counts_of by.codes.now) m.now → FitsValue (sizes m.now) callee → FitsWay (sizes m.now) way → AllByRecursion (FitsValue (sizes m.now)) args.now → F.pre by.call alloc m f h callee way args steps × ((r : _) (m' : _) (f' : _) (h' : _) (steps' : _) → F.post by.call alloc m f h callee way args steps r m' f' h' steps' → Entered H.rows (counts_of by.codes.now) (H.agrees h.now) (H.agrees h'.now) (H.zones h'.now) m.now m'.now r f.now.left f'.now.left (S.counted steps.now) (S.counted steps'.now)) };

    fn again(
        &self,
        alloc: Global,
        machine: &mut Machine<'_>,
        fuel: &mut Fuel,
        host: &mut H,
        callee: Value,
        way: Way,
        args: &[Value],
        steps: &mut S,
    ) -> Result<Value, Stop> {
        (self.call)(alloc, machine, fuel, host, callee, way, args, steps)
    }

    ghost fares = { λ by k calls follows. follows.0 };

    ghost keep = { λ by k calls h follows. follows.1 h };
}

/// Calls a value, where at most so many calls may be active (ECMA-262 5.1 §13.2.1, §13.2.2, §15.3.4.5).
pub(crate) fn invoke<H: Host, L: Ledger>(
    alloc: Global,
    codes: &[ValidCode],
    machine: &mut Machine<'_>,
    fuel: &mut Fuel,
    host: &mut H,
    callee: Value,
    way: Way,
    args: &[Value],
    calls: u32,
    steps: &mut Steps<L>,
) -> Result<Value, Stop>
    requires fits { FitsProgram H.rows (H.zones host.old) (counts_of codes.now) machine.old }
    requires callee { FitsValue (sizes machine.old) callee }
    requires way { FitsWay (sizes machine.old) way }
    requires args { AllByRecursion (FitsValue (sizes machine.old)) args.now }
    ensures told { (k : Known) (program : Program) → IsProgram H.means H.constructs codes.now k program → H.agrees host.new k → Means (Stands (H.keeps host.old) fuel.old.left k machine.old) (Stands (H.keeps host.new) fuel.new.left k machine.new) (H.halted host.new k) machine.new.texts (ShowsValue machine.new.texts) result (by_way (calls_at program calls) machine.old.texts way (content machine.old.texts callee) (map (content machine.old.texts) args.now)) }
    ensures entered { Entered H.rows (counts_of codes.now) (H.agrees host.old) (H.agrees host.new) (H.zones host.new) machine.old machine.new result fuel.old.left fuel.new.left steps.old steps.new }
{
    let Some(object) = object_to_enter::<H>(machine, callee, way) else {
        return Err(throw(alloc, machine, refusal(way), steps));
    };
    if calls == 0 {
        return Err(throw(alloc, machine, Cause::CallDepth, steps));
    }
    let further = calls - 1;
    let run = ByClosure {
        codes,
        call: |alloc: Global, machine: &mut Machine<
            '_,
        >, fuel: &mut Fuel, host: &mut H, callee: Value, way: Way, args: &[Value], steps: &mut Steps<
            L,
        >| -> Result<Value, Stop>
            requires fits { FitsProgram H.rows (H.zones host.old) (counts_of codes.now) machine.old }
            requires callee { FitsValue (sizes machine.old) callee }
            requires way { FitsWay (sizes machine.old) way }
            requires args { AllByRecursion (FitsValue (sizes machine.old)) args.now }
            ensures told { (k : Known) (program : Program) → IsProgram H.means H.constructs codes.entry.now k program → H.agrees host.new k → Means (Stands (H.keeps host.old) fuel.old.left k machine.old) (Stands (H.keeps host.new) fuel.new.left k machine.new) (H.halted host.new k) machine.new.texts (ShowsValue machine.new.texts) result (by_way (calls_at program further) machine.old.texts way (content machine.old.texts callee) (map (content machine.old.texts) args.now)) }
            ensures entered { Entered H.rows (counts_of codes.entry.now) (H.agrees host.old) (H.agrees host.new) (H.zones host.new) machine.old machine.new result fuel.old.left fuel.new.left steps.old steps.new }
        {
            invoke(
                alloc, codes, machine, fuel, host, callee, way, args, further, steps,
            )
        },
    };
    let mut own = Own { fuel, host, run };
    enter(alloc, codes, object, way, args, &mut own, machine, steps)
}
