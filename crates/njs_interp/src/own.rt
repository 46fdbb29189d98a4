// The interpreter's own caller.
ghost use Rattle.std.specs.Prelude.{◌≡◌, ◌≤◌, ◌<◌, ◌-◌, ◌++◌, ◌∷◌, [], ℕ, List, Bool, Option, length, map, refl, OnOk, OnErr, Err};
ghost use Rattle.std.specs.List.{AllByRecursion};
ghost use Rattle.njs_shared.specs.Heap.{Heap, sizes};
ghost use Rattle.njs_shared.specs.Fits.{FitsValue};
ghost use Rattle.njs_clone.specs.Content.{content};
ghost use Rattle.njs_meaning.specs.State.{State};
ghost use Rattle.njs_meaning.specs.Replies.{Known};
ghost use Rattle.njs_meaning.specs.Running.{Calls};
ghost use Rattle.njs_meaning.specs.Errors.{first_count};
ghost use Rattle.njs_simul.specs.Fits.{Good, CallsFare};
ghost use Rattle.njs_convert.specs.Tells.{Means, ShowsValue, Grows, FitsAnswer};
ghost use Rattle.njs_interp.specs.Hosts.{counts_of, FitsProgram};
ghost use Rattle.std.proofs.Common.{sym, subst, le_refl, le_trans};
ghost use Rattle.njs_interp.specs.Owned.{stands_extends, fits_extends, fits_grown, holds_changed, stands_hosted};
ghost use Rattle.njs_interp.specs.Standing.{Holds, Stands, FitsWay, by_way, CallsKeep};

use crate::{Fuel, Host, Runner};
use njs_clone::Machine;
use njs_convert::{Caller, HostCaller, Stop};
use njs_meaning::Level;
use njs_text::{Steps, Text};
use njs_value::Value;
use std::alloc::Global;
use std::sync::ledger::Ledger;

/// How a value is called.
#[derive(Clone, Copy, Debug, PartialEq, Eq)]
pub enum Way {
    /// With `this` (ECMA-262 5.1 §13.2.1).
    Call(Value),
    /// By `new` (ECMA-262 5.1 §13.2.2).
    New,
}

// What counts steps.
pub(crate) trait Counter {
    ghost counted: { Self → ℕ };
}

impl<L: Ledger> Counter for Steps<L> {
    ghost counted = { λ steps. steps };
}

// A run that can be entered again.
pub(crate) trait Again<H: Host, S: Counter> {
    // What calls and `new` mean to it.
    ghost follows: { Self → Known → Calls → Type 0 };

    // The slots that functions count on.
    ghost counts: { Self → ℕ → ℕ → Option (List ℕ) };

    // It may be entered.
    ghost may: { Self → Type 0 };

    fn again(
        &self,
        alloc: Global,
        machine: &mut Machine<'_>,
        fuel: &mut Fuel,
        host: &mut H,
        callee: Value,
        way: Way,
        args: &[Value],
        steps: &mut S,
    ) -> Result<Value, Stop>
        requires may { may self.now }
        requires fits { FitsProgram H.rows (H.zones host.old) (counts self.now) machine.old }
        requires callee { FitsValue (sizes machine.old) callee }
        requires way { FitsWay (sizes machine.old) way }
        requires args { AllByRecursion (FitsValue (sizes machine.old)) args.now }
        ensures told { (calls : Calls) (k : Known) → follows self.now k calls → H.agrees host.new k → Means (Stands (H.keeps host.old) fuel.old.left k machine.old) (Stands (H.keeps host.new) fuel.new.left k machine.new) (H.halted host.new k) machine.new.texts (ShowsValue machine.new.texts) result (by_way calls machine.old.texts way (content machine.old.texts callee) (map (content machine.old.texts) args.now)) }
        ensures agrees { (k : Known) → H.agrees host.new k → H.agrees host.old k }
        ensures fits { FitsProgram H.rows (H.zones host.new) (counts self.now) machine.new }
        ensures grows { Grows machine.old machine.new }
        ensures value { FitsAnswer (FitsValue (sizes machine.new)) (sizes machine.new) result }
        ensures spent { fuel.new.left ≤ fuel.old.left }
        ensures steps { S.counted steps.old ≤ S.counted steps.new };

    ghost fares: { (a : Self) (k : Known) (calls : Calls) → follows a k calls → CallsFare k.around calls };

    ghost keep: { (a : Self) (k : Known) (calls : Calls) (h : H) → follows a k calls → CallsKeep (H.halted h k) calls };
}

// A caller over the ticks that are left, a host, and a run that can be entered again.
#[derive(Drop)]
pub(crate) struct Own<'a, H, A> {
    pub fuel: &'a mut Fuel,
    pub host: &'a mut H,
    pub run: A,
}

impl<'a, H: Host, L: Ledger, A: Again<H, Steps<L>>> Caller<L> for Own<'a, H, A> {
    ghost stands = { λ own k h s. Stands (H.keeps own.host.now) own.fuel.now.left k h s };

    ghost follows = { λ own k calls. A.follows own.run k calls };

    ghost agrees = { λ own k. H.agrees own.host.now k };

    ghost stopped = { λ own k s. H.halted own.host.now k s };

    ghost log = { λ own. H.log own.host.now };

    ghost ticks_of = { λ own. own.fuel.now.left };

    ghost may_call = { λ own. A.may own.run };

    ghost fits = { λ own h. FitsProgram H.rows (H.zones own.host.now) (A.counts own.run) h };

    ghost lent = { λ own. record { names = own.fuel.ghost_name ∷ own.host.ghost_name ∷ []; counts = A.counts own.run } };

    ghost adds = { λ own n later m. n ≤ m };

    ghost charged = { λ own later. later.host.now ≡ own.host.now };

    ghost noted = { λ own later. H.zones later.host.now ≡ H.zones own.host.now };

    fn call(
        &mut self,
        alloc: Global,
        machine: &mut Machine<'_>,
        callee: Value,
        this: Value,
        args: &[Value],
        steps: &mut Steps<L>,
    ) -> Result<Value, Stop> {
        let way = Way::Call(this);
        self.run.again(
            alloc, machine, self.fuel, self.host, callee, way, args, steps,
        )
    }

    fn construct(
        &mut self,
        alloc: Global,
        machine: &mut Machine<'_>,
        callee: Value,
        args: &[Value],
        steps: &mut Steps<L>,
    ) -> Result<Value, Stop> {
        self.run.again(
            alloc,
            machine,
            self.fuel,
            self.host,
            callee,
            Way::New,
            args,
            steps,
        )
    }

    fn charge(&mut self, ticks: u64) -> Result<(), Stop> {
        if self.fuel.left < ticks {
            return Err(Stop::Fuel);
        }
        self.fuel.left -= ticks;
        Ok(())
    }

    fn note(&mut self, alloc: Global, level: Level, text: &Text) -> Result<(), Stop> {
        match self.host.note(alloc, level, text) {
            Ok(()) => Ok(()),
            Err(_) => Err(Stop::NoMemory),
        }
    }

    ghost objects_are = { λ own k h s stands. sym stands.holds.heap.objects };

    ghost ticks_are = { λ own k h s stands. stands.holds.ticks_are };

    ghost log_is = { λ own k h s stands. H.log_is own.host.now k s stands.holds.kept };

    ghost stands_on = { λ own k h l s stands extends. stands_extends (H.keeps own.host.now) own.fuel.now.left k h l s (λ t a b c d kept. H.keeps_as own.host.now k s t a b c d kept) stands extends };

    ghost stops = { λ own k h s stands. H.halts own.host.now k s stands.holds.kept };

    ghost stopped_as = { λ own k s t zones asked stopped. H.halted_as own.host.now k s t zones asked stopped };

    ghost stopped_calls = { λ own k calls follows f this args s stopped. (A.keep own.run k calls own.host.now follows).call f this args s stopped };

    ghost stopped_new = { λ own k calls follows f args s stopped. (A.keep own.run k calls own.host.now follows).construct f args s stopped };

    ghost fits_on = { λ own h l fits extends. fits_extends H.rows (H.zones own.host.now) (A.counts own.run) h l fits extends };

    ghost adds_none = { λ own n. le_refl n };

    ghost adds_on = { λ own d e n k m first second. le_trans first second };

    ghost adds_up = { λ own d n k adds. adds };
}

impl<'a, H: Host, L: Ledger, A: Again<H, Steps<L>>> HostCaller<H, L> for Own<'a, H, A> {
    ghost host_of = { λ own. own.host.now };

    ghost with_host = { λ own h. record own { host = record own.host { now = h } } };

    ghost keeps = { λ h k s. H.keeps h k s };

    ghost agreed = { λ h k. H.agrees h k };

    ghost halted = { λ h k s. H.halted h k s };

    ghost same_zones = { λ h later. H.zones later ≡ H.zones h };

    ghost notes = { λ h later. H.zones later ≡ H.zones h };

    fn host(&mut self) -> &mut H {
        &mut *self.host
    }

    ghost host_with = { λ own h. refl };

    ghost with_own = { λ own. refl };

    ghost host_charged = { λ own later charged. charged };

    ghost host_noted = { λ own later noted. noted };

    ghost ticks_with = { λ own h. refl };

    ghost lent_with = { λ own h. refl };

    ghost follows_with = { λ own h k calls follows. follows };

    ghost may_call_with = { λ own h may. may };

    ghost fits_with = { λ own h l same fits. subst (λ zones. FitsProgram H.rows zones (A.counts own.run) l) (sym same) fits };

    ghost host_keeps = { λ own k h s stands. stands.holds.kept };

    ghost stands_with = { λ own host k h s t stands same kept. stands_hosted (H.keeps own.host.now) (H.keeps host) own.fuel.now.left k h s t stands same kept };

    ghost host_agrees = { λ own k. (λ agrees. agrees, λ agreed. agreed) };

    ghost host_stopped = { λ own k s. (λ stopped. stopped, λ halted. halted) };

    ghost adds_with = { λ own h n. le_refl n };
}

impl<'a, H: Host, L: Ledger, A: Again<H, Steps<L>>> Runner<L> for Own<'a, H, A> {
    ghost holds = { λ own k h s. Holds (H.keeps own.host.now) own.fuel.now.left k h s };

    ghost holds_of = { λ own k h s stands. stands.holds };

    ghost stands_of = { λ own k h s holds good. record { holds = holds; good = good } };

    ghost good_is = { λ own k h s stands. stands.good };

    ghost heap_is = { λ own k h s holds. holds.heap };

    ghost holds_by = { λ own k h l s t standing stands fits beside. holds_changed (H.keeps own.host.now) own.fuel.now.left k h l s t (λ a b c d kept. H.keeps_as own.host.now k s t a b c d kept) standing.holds stands fits beside };

    ghost fares = { λ own k calls follows. A.fares own.run k calls follows };

    ghost fits_grown = { λ own h l fits widens functions. fits_grown H.rows (H.zones own.host.now) (A.counts own.run) h l fits widens functions };

    ghost adds_more = { λ own n k more. more };
}
