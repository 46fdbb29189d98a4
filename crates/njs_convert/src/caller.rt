// What a built-in or a conversion may do to whoever called it.
ghost use Rattle.std.specs.Prelude.{◌≡◌, ◌≤◌, ◌<◌, ◌-◌, ◌++◌, ◌∷◌, [], ℕ, List, length, map, IfOk, OnOk, OnErr, Err};
ghost use Rattle.std.specs.Borrow.{Lends, sem};
ghost use Rattle.std.specs.List.{AllByRecursion};
ghost use Rattle.njs_shared.specs.Heap.{Heap, sizes};
ghost use Rattle.njs_shared.specs.Fits.{FitsValue};
ghost use Rattle.njs_clone.specs.Content.{content};
ghost use Rattle.njs_meaning.specs.State.{State, Entry};
ghost use Rattle.njs_meaning.specs.Running.{Calls};
ghost use Rattle.njs_meaning.specs.Replies.{Known, state_of};
ghost use Rattle.njs_meaning.specs.Values.{PlainValue};
ghost use Rattle.njs_meaning.specs.Errors.{first_count};
ghost use Rattle.njs_clone.specs.StandsFor.{plain_objects};
ghost use Rattle.njs_convert.specs.Tells.{Means, ShowsValue, Grows, Extends, SameButHost, FitsAnswer, Lent};

use crate::Stop;
use njs_clone::Machine;
use njs_meaning::Level;
use njs_text::{Steps, Text};
use njs_value::Value;
use std::alloc::Global;
use std::sync::ledger::Ledger;

/// Who called, and what calls of values, ticks and the log mean to it. A machine stands for states of a run
/// (`stands`), whose objects are the machine's by content, and whose ticks and log are the caller's. What is said of a run
/// is said for each list of replies that begins with those that its dictionaries gave so far (`agrees`).
pub trait Caller<L: Ledger> {
    /// The states of the run that a heap stands for under this caller.
    ghost stands: { Self → Known → Heap → State → Type 0 };

    /// Its calls, and `new`, are what this meaning says.
    ghost follows: { Self → Known → Calls → Type 0 };

    /// The replies that were given so far are the first of those that are known.
    ghost agrees: { Self → Known → Type 0 };

    /// Where the known replies are just those that were given, no reply is to come in a state, and the calls that it says
    /// were answered are just those that were.
    ghost stopped: { Self → Known → State → Type 0 };

    /// The log.
    ghost log: { Self → List Entry };

    /// The ticks left.
    ghost ticks_of: { Self → ℕ };

    /// Calls may be made now.
    ghost may_call: { Self → Type 0 };

    /// The heaps that fit it.
    ghost fits: { Self → Heap → Type 0 };

    /// What of it no call changes: the references that it works over, and the slots that functions count on.
    ghost lent: { Self → Lent };

    /// The steps that its calls add: how those counted before and after go with the caller before and after. A charge and a
    /// note add none.
    ghost adds: { Self → ℕ → Self → ℕ → Type 0 };

    /// The caller before and after a charge.
    ghost charged: { Self → Self → Type 0 };

    /// The caller before and after a note.
    ghost noted: { Self → Self → Type 0 };

    /// Calls a value with `this` and arguments.
    fn call(
        &mut self,
        alloc: Global,
        machine: &mut Machine<'_>,
        callee: Value,
        this: Value,
        args: &[Value],
        steps: &mut Steps<L>,
    ) -> Result<Value, Stop>
        requires may { may_call self.old }
        requires fits { fits self.old machine.old }
        requires first { first_count ≤ length machine.old.objects }
        requires callee { FitsValue (sizes machine.old) callee }
        requires this { FitsValue (sizes machine.old) this }
        requires args { AllByRecursion (FitsValue (sizes machine.old)) args.now }
        ensures told { (calls : Calls) (k : Known) → follows self.old k calls → agrees self.new k → Means (stands self.old k machine.old) (stands self.new k machine.new) (stopped self.new k) machine.new.texts (ShowsValue machine.new.texts) result (calls.call (content machine.old.texts callee) (content machine.old.texts this) (map (content machine.old.texts) args.now)) }
        ensures kept { (calls : Calls) (k : Known) → follows self.old k calls → follows self.new k calls }
        ensures agrees { (k : Known) → agrees self.new k → agrees self.old k }
        ensures may { may_call self.new }
        ensures fits { fits self.new machine.new }
        ensures same { lent self.new ≡ lent self.old }
        ensures grows { Grows machine.old machine.new }
        ensures value { FitsAnswer (FitsValue (sizes machine.new)) (sizes machine.new) result }
        ensures spent { ticks_of self.new ≤ ticks_of self.old }
        ensures steps { adds self.old steps.old self.new steps.new };

    /// Makes an object by `new` of a value with arguments (ECMA-262 5.1 §11.2.2).
    fn construct(
        &mut self,
        alloc: Global,
        machine: &mut Machine<'_>,
        callee: Value,
        args: &[Value],
        steps: &mut Steps<L>,
    ) -> Result<Value, Stop>
        requires may { may_call self.old }
        requires fits { fits self.old machine.old }
        requires first { first_count ≤ length machine.old.objects }
        requires callee { FitsValue (sizes machine.old) callee }
        requires args { AllByRecursion (FitsValue (sizes machine.old)) args.now }
        ensures told { (calls : Calls) (k : Known) → follows self.old k calls → agrees self.new k → Means (stands self.old k machine.old) (stands self.new k machine.new) (stopped self.new k) machine.new.texts (ShowsValue machine.new.texts) result (calls.construct (content machine.old.texts callee) (map (content machine.old.texts) args.now)) }
        ensures kept { (calls : Calls) (k : Known) → follows self.old k calls → follows self.new k calls }
        ensures agrees { (k : Known) → agrees self.new k → agrees self.old k }
        ensures may { may_call self.new }
        ensures fits { fits self.new machine.new }
        ensures same { lent self.new ≡ lent self.old }
        ensures grows { Grows machine.old machine.new }
        ensures value { FitsAnswer (FitsValue (sizes machine.new)) (sizes machine.new) result }
        ensures spent { ticks_of self.new ≤ ticks_of self.old }
        ensures steps { adds self.old steps.old self.new steps.new };

    /// Takes ticks. `Fuel` comes exactly where fewer are left, and then none is taken.
    fn charge(&mut self, ticks: u64) -> Result<(), Stop>
        ensures ok { OnOk result ((ticks ≤ ticks_of self.old) × (ticks_of self.new ≡ ticks_of self.old - ticks)) }
        ensures err { OnErr result ((result ≡ Err Stop.Fuel) × (ticks_of self.old < ticks) × (ticks_of self.new ≡ ticks_of self.old)) }
        ensures log { log self.new ≡ log self.old }
        ensures charged { charged self.old self.new }
        ensures steps { (n : ℕ) → adds self.old n self.new n }
        ensures stands { (k : Known) (h : Heap) (s : State) → stands self.old k h s → stands self.new k h (record s { ticks = ticks_of self.new }) }
        ensures kept { (calls : Calls) (k : Known) → follows self.old k calls → follows self.new k calls }
        ensures agrees { (k : Known) → agrees self.new k → agrees self.old k }
        ensures may { may_call self.old → may_call self.new }
        ensures fits { (h : Heap) → fits self.old h → fits self.new h }
        ensures same { lent self.new ≡ lent self.old };

    /// Adds an entry to the log.
    fn note(&mut self, alloc: Global, level: Level, text: &Text) -> Result<(), Stop>
        ensures ok { OnOk result (log self.new ≡ log self.old ++ record { level = level; text = text.now } ∷ []) }
        ensures err { OnErr result (result ≡ Err Stop.NoMemory) }
        ensures ticks { ticks_of self.new ≡ ticks_of self.old }
        ensures noted { noted self.old self.new }
        ensures steps { (n : ℕ) → adds self.old n self.new n }
        ensures stands { OnOk result ((k : Known) (h : Heap) (s : State) → stands self.old k h s → stands self.new k h (record s { log = log self.new })) }
        ensures stopped { (k : Known) (s : State) → stopped self.old k s → stopped self.new k s }
        ensures kept { (calls : Calls) (k : Known) → follows self.old k calls → follows self.new k calls }
        ensures agrees { (k : Known) → agrees self.new k → agrees self.old k }
        ensures may { may_call self.old → may_call self.new }
        ensures fits { (h : Heap) → fits self.old h → fits self.new h }
        ensures same { lent self.new ≡ lent self.old };

    ghost objects_are: { (c : Self) (k : Known) (h : Heap) (s : State) → stands c k h s → s.objects ≡ plain_objects h };

    ghost ticks_are: { (c : Self) (k : Known) (h : Heap) (s : State) → stands c k h s → s.ticks ≡ ticks_of c };

    ghost log_is: { (c : Self) (k : Known) (h : Heap) (s : State) → stands c k h s → s.log ≡ log c };

    ghost stands_on: { (c : Self) (k : Known) (h l : Heap) (s : State) → stands c k h s → Extends h l → stands c k l (record s { objects = plain_objects l }) };

    ghost stops: { (c : Self) (k : Known) (h : Heap) (s : State) → stands c k h s → stopped c k s };

    ghost stopped_as: { (c : Self) (k : Known) (s t : State) → t.zones ≡ s.zones → t.asked ≡ s.asked → stopped c k s → stopped c k t };

    ghost stopped_calls: { (c : Self) (k : Known) (calls : Calls) → follows c k calls → (f this : PlainValue) (args : List PlainValue) (s : State) → stopped c k s → stopped c k (state_of (calls.call f this args s)) };

    ghost stopped_new: { (c : Self) (k : Known) (calls : Calls) → follows c k calls → (f : PlainValue) (args : List PlainValue) (s : State) → stopped c k s → stopped c k (state_of (calls.construct f args s)) };

    ghost fits_on: { (c : Self) (h l : Heap) → fits c h → Extends h l → fits c l };

    ghost adds_none: { (c : Self) (n : ℕ) → adds c n c n };

    ghost adds_on: { (c d e : Self) (n k m : ℕ) → adds c n d k → adds d k e m → adds c n e m };

    ghost adds_up: { (c d : Self) (n k : ℕ) → adds c n d k → n ≤ k };
}

/// A caller that works over a host, which it lends: so a built-in that a script calls back reaches the same one.
pub trait HostCaller<H, L: Ledger>: Caller<L> {
    /// The host.
    ghost host_of: { Self → H };

    /// The caller with another host.
    ghost with_host: { Self → H → Self };

    /// What a host keeps of a state: the response, the log, the dictionaries and the calls on them that were answered.
    ghost keeps: { H → Known → State → Type 0 };

    /// What `agrees` says, of a host.
    ghost agreed: { H → Known → Type 0 };

    /// What `stopped` says, of a host.
    ghost halted: { H → Known → State → Type 0 };

    /// Hosts with the same zones: what must stay, where the host is written, for the machines that fit.
    ghost same_zones: { H → H → Type 0 };

    /// What a note does to the host.
    ghost notes: { H → H → Type 0 };

    /// Lends the host.
    fn host(&mut self) -> &mut H
        ensures* lends { sem 𝓛 (Lends Self.row H.row self.entry result (with_host self.old)) }
        ensures value { result.now ≡ host_of self.old };

    ghost host_with: { (c : Self) (h : H) → host_of (with_host c h) ≡ h };

    ghost with_own: { (c : Self) → with_host c (host_of c) ≡ c };

    ghost host_charged: { (c d : Self) → Self.charged c d → host_of d ≡ host_of c };

    ghost host_noted: { (c d : Self) → Self.noted c d → notes (host_of c) (host_of d) };

    ghost ticks_with: { (c : Self) (h : H) → Self.ticks_of (with_host c h) ≡ Self.ticks_of c };

    ghost lent_with: { (c : Self) (h : H) → Self.lent (with_host c h) ≡ Self.lent c };

    ghost follows_with: { (c : Self) (h : H) (k : Known) (calls : Calls) → Self.follows c k calls → Self.follows (with_host c h) k calls };

    ghost may_call_with: { (c : Self) (h : H) → Self.may_call c → Self.may_call (with_host c h) };

    ghost fits_with: { (c : Self) (h : H) (l : Heap) → same_zones (host_of c) h → Self.fits c l → Self.fits (with_host c h) l };

    ghost host_keeps: { (c : Self) (k : Known) (h : Heap) (s : State) → Self.stands c k h s → keeps (host_of c) k s };

    ghost stands_with: { (c : Self) (host : H) (k : Known) (h : Heap) (s t : State) → Self.stands c k h s → SameButHost s t → keeps host k t → Self.stands (with_host c host) k h t };

    ghost host_agrees: { (c : Self) (k : Known) → (Self.agrees c k → agreed (host_of c) k) × (agreed (host_of c) k → Self.agrees c k) };

    ghost host_stopped: { (c : Self) (k : Known) (s : State) → (Self.stopped c k s → halted (host_of c) k s) × (halted (host_of c) k s → Self.stopped c k s) };

    ghost adds_with: { (c : Self) (h : H) (n : ℕ) → Self.adds c n (with_host c h) n };
}
